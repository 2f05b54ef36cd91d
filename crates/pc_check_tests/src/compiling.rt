//! Sources that are compiled, and certificates of their objects.
ghost use Rattle.std.specs.Prelude.{IfOk};
ghost use Rattle.pc_object.specs.ObjectText.{IsObject, object_of};
ghost use Rattle.pc_word.specs.Ranges.{AreLimits, IsExtent};

use pc_cert::Certificate;
use pc_checking::check;
use pc_compile::{Compiled, compile};
use pc_flow::Flow;
use pc_machine::{Code, well_formed};
use pc_object::{decode, encode};
use pc_passes::passes;
use pc_proposing::propose;
use pc_source::read_program;
use pc_table::RegionTable;
use pc_word::{Extent, Limits, MOST_OBJECT, MOST_SOURCE};
use std::alloc::Global;
use std::test::Fail;

/// For what rows, and with how many iterations together, a source is compiled.
#[derive(Clone, Copy, Debug)]
pub(crate) struct Options {
    pub(crate) limits: Limits,
    pub(crate) extent: Extent,
}

/// A source's regions, the object that it is compiled to, and a certificate that is proposed.
#[derive(Drop)]
pub(crate) struct Certified {
    flow: Flow,
    table: RegionTable,
    pub(crate) object: Vec<u8>,
    certificate: Certificate,
}

/// A source, compiled with all passes.
fn compile_source(alloc: Global, text: &[u8], options: Options) -> Result<Compiled, Fail>
    requires limits { AreLimits options.limits }
    requires extent { IsExtent options.extent }
    ensures { IfOk result (λ it. IsObject (object_of it.object)) }
{
    if text.len() > MOST_SOURCE {
        return Err(Fail::from("the source is too long"));
    }
    let checked = read_program(alloc, text)?;
    let mut passes = passes(alloc)?;
    Ok(compile(alloc, &checked, &mut passes, options.limits, options.extent)?)
}

/// A source's object, with a certificate that is proposed for it.
pub(crate) fn certify(alloc: Global, text: &[u8], options: Options) -> Result<Certified, Fail>
    requires limits { AreLimits options.limits }
    requires extent { IsExtent options.extent }
{
    let Compiled {
        flow,
        table,
        object,
        ..
    } = compile_source(alloc, text, options)?;
    let bytes = encode(alloc, &object)?;
    let certificate = propose(alloc, &table, &object)?;
    Ok(Certified {
        flow,
        table,
        object: bytes,
        certificate,
    })
}

/// Which certificates are accepted for an object: the one that stands there, and one that is proposed for this object.
#[derive(Clone, Copy, Debug, PartialEq, Eq)]
pub(crate) struct Accepted {
    pub(crate) old: bool,
    pub(crate) new: bool,
}

impl Certified {
    /// Whether a certificate is accepted for a code.
    fn accepts(&self, alloc: Global, code: &Code, certificate: &Certificate) -> bool {
        if well_formed(code).is_some() || certificate.entries.len() > 100_000 {
            return false;
        }
        let initial = self.flow.initial();
        check(alloc, &self.table, initial, code, certificate).is_ok()
    }

    /// Which certificates are accepted for the object of these bytes; none where they are no object. One is proposed
    /// only where that is asked for, since much is tried for an object that has none.
    pub(crate) fn accepted(
        &self,
        alloc: Global,
        bytes: &[u8],
        anew: bool,
    ) -> Result<Accepted, Fail> {
        if bytes.len() > MOST_OBJECT {
            return Ok(Accepted {
                old: false,
                new: false,
            });
        }
        let Ok(object) = decode(alloc, bytes) else {
            return Ok(Accepted {
                old: false,
                new: false,
            });
        };
        let old = self.accepts(alloc, &object.code, &self.certificate);
        if !anew {
            return Ok(Accepted { old, new: false });
        }
        let proposed = propose(alloc, &self.table, &object)?;
        let new = self.accepts(alloc, &object.code, &proposed);
        Ok(Accepted { old, new })
    }
}
