//! Sources whose objects have accepted certificates, which are accepted for no changed object that does something else.

ghost use Rattle.pc_word.specs.Ranges.{AreLimits, IsExtent};

use crate::compiling::{Certified, Options, certify};
use crate::mutants::mutant;
use crate::running::does_otherwise;
use pc_sample::sample;
use pc_word::{Extent, Limits};
use std::alloc::Global;
use std::test::Fail;

/// The options of a compiler that is given none.
const USUAL: Options = Options {
    limits: Limits {
        ops: 8,
        tests: 3,
        mem: 2,
    },
    extent: Extent {
        window: 4,
        rows: 256,
    },
};

/// Narrow rows, and two iterations together.
const NARROW: Options = Options {
    limits: Limits {
        ops: 2,
        tests: 1,
        mem: 1,
    },
    extent: Extent {
        window: 2,
        rows: 256,
    },
};

/// A dot product.
const DOT_PRODUCT: &[u8] = b"int main(void){static int a[6]={1,2,3,4,5,6};\
    static int b[6]={6,5,4,3,2,1};int i;int s=0;for(i=0;i<6;i++)s=s+a[i]*b[i];print(s);}";

/// A loop with a condition, over the input.
const CONDITION: &[u8] = b"int main(void){int n=read();int s=0;int i;\
    for(i=0;i<n;i++){int x=read();if(x<0)s=s-x;else s=s+2*x;}print(s);}";

/// A loop within a loop.
const NESTED: &[u8] = b"int main(void){int i;int j;int s=0;\
    for(i=0;i<3;i++){for(j=0;j<4;j++)s=s+i*j;print(s);}}";

/// Stores that loads of the next iteration meet.
const RECURRENCE: &[u8] =
    b"int main(void){int a[9];int i;a[0]=1;for(i=1;i<9;i++)a[i]=a[i-1]*3+i;print(a[8]);}";

/// How many seeds are tried for each object.
const SEEDS: u64 = 40;

/// For how many of these a certificate is proposed anew, if the changed object does something else.
const ANEW: u64 = 2;

/// How many changed objects did something else, and how many of these were accepted all the same.
#[derive(Clone, Copy, Debug, PartialEq, Eq)]
struct Tally {
    otherwise: u32,
    accepted: u32,
}

/// What comes of one changed object.
fn tried(
    alloc: Global,
    own: &Certified,
    bytes: &[u8],
    anew: bool,
    so_far: Tally,
) -> Result<Tally, Fail> {
    if !does_otherwise(alloc, bytes, own.object.as_slice())? {
        return Ok(so_far);
    }
    let accepted = own.accepted(alloc, bytes, anew)?;
    let wrong = u32::from(accepted.old || accepted.new);
    Ok(Tally {
        otherwise: so_far.otherwise.saturating_add(1),
        accepted: so_far.accepted.saturating_add(wrong),
    })
}

/// What comes of an object that is changed by each seed.
fn tried_all(alloc: Global, own: &Certified) -> Result<Tally, Fail> {
    let mut all = Tally {
        otherwise: 0,
        accepted: 0,
    };
    for seed in 0..SEEDS {
        let bytes = mutant(alloc, own.object.as_slice(), seed)?;
        all = tried(alloc, own, bytes.as_slice(), seed < ANEW, all)?;
    }
    Ok(all)
}

/// Whether a source's own certificates are accepted, and none of many changed objects that do something else.
fn tells_changes(alloc: Global, text: &[u8], options: Options) -> Result<bool, Fail>
    requires limits { AreLimits options.limits }
    requires extent { IsExtent options.extent }
{
    let own = certify(alloc, text, options)?;
    let accepted = own.accepted(alloc, own.object.as_slice(), true)?;
    let all = tried_all(alloc, &own)?;
    Ok(accepted.old && accepted.new && all.accepted == 0 && all.otherwise > 0)
}

#[test]
fn no_changed_kernel_is_taken(rt: HostRuntime) -> Result<(), Fail> {
    for text in [DOT_PRODUCT, CONDITION, RECURRENCE] {
        assert!(rt; tells_changes(rt.alloc(), text, USUAL)?, "{text:?}");
    }
    for text in [DOT_PRODUCT, CONDITION, NESTED, RECURRENCE] {
        assert!(rt; tells_changes(rt.alloc(), text, NARROW)?, "narrow {text:?}");
    }
    Ok(())
}

#[test]
fn no_changed_sample_is_taken(rt: HostRuntime) -> Result<(), Fail> {
    for number in [0, 2] {
        let text = sample(rt.alloc(), number)?;
        assert!(rt;
            tells_changes(rt.alloc(), text.as_slice(), USUAL)?,
            "@{number}"
        );
        assert!(rt;
            tells_changes(rt.alloc(), text.as_slice(), NARROW)?,
            "narrow @{number}"
        );
    }
    Ok(())
}
