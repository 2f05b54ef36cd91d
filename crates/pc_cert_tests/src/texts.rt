//! Certificates that are read and written again, and bytes that are refused.

use pc_cert::{
    Certificate, CertificateError, Entry, Fact, Opening, Source, Step, WindowOperand, read, write,
};
use pc_word::MOST_OBJECT;
use std::alloc::Global;
use std::test::Fail;

/// No entry.
const NOTHING: &[u8] = b"PTC1\x00\x00\x00\x00";

/// The entry of row 0, whose window is ready as it is.
const READY: &[u8] = b"PTC1\x00\x00\x00\x01\
    \x00\x00\x00\x00\x00\x00\x00\x00\x00\x00\x00\xFF\xFF\x00\x00";

/// Two entries, with each kind of source, operand and step, and both ways to begin.
const KINDS: &[u8] = b"PTC1\x00\x00\x00\x02\
    \x00\x00\x00\x00\x00\x00\x00\x03\
    \x00\x02\x00\x7F\x00\x01\x00\x01\xFF\xFF\xFF\xF9\x01\x80\x00\x00\x00\
    \x18\x00\x02\
    \x00\x03\x01\x00\x07\x02\x00\x01\x00\x02\x00\x0A\x03\x00\x04\
    \x00\x00\x00\x09\xFF\xFF\xFF\xFF\
    \x00\x00\
    \x04\xFF\xFF\
    \x00\x02\x04\x00\x00\x05\x00\x06\x01\x00";

/// Bytes that are no certificate, each with why.
const REFUSED: [(&[u8], CertificateError); 12] = [
    (b"", CertificateError::Truncated { offset: 0 }),
    (b"PTC", CertificateError::Truncated { offset: 3 }),
    (b"PTV", CertificateError::BadMagic),
    (b"PTC2\x00\x00\x00\x00", CertificateError::BadMagic),
    (
        b"PTC1\x00\x00\x00",
        CertificateError::Truncated { offset: 7 },
    ),
    (
        b"PTC1\x00\x00\x00\x00\x00",
        CertificateError::Trailing { offset: 8 },
    ),
    (
        b"PTC1\x00\x00\x00\x01\x00\x00\x00\x00\x00\x00\x00\x00\x00\x01\x02\x00",
        CertificateError::BadFact { offset: 18 },
    ),
    (
        b"PTC1\x00\x00\x00\x01\x00\x00\x00\x00\x00\x00\x00\x00\x00\x01\x00\x00\x03",
        CertificateError::BadFact { offset: 20 },
    ),
    (
        b"PTC1\x00\x00\x00\x01\x00\x00\x00\x00\x00\x00\x00\x00\x00\x00\x09\xFF\xFF\x00\x00",
        CertificateError::BadStep { offset: 18 },
    ),
    (
        b"PTC1\x00\x00\x00\x01\x00\x00\x00\x00\x00\x00\x00\x00\x00\x00\x0F\xFF\xFF\x00\x00",
        CertificateError::BadStep { offset: 18 },
    ),
    (
        b"PTC1\x00\x00\x00\x01\x00\x00\x00\x00\x00\x00\x00\x00\x00\x00\x19\xFF\xFF\x00\x00",
        CertificateError::BadStep { offset: 18 },
    ),
    (
        b"PTC1\x00\x00\x00\x01\x00\x00\x00\x00\x00\x00\x00\x00\x00\x00\x00\xFF\xFF\x00\x01\x06",
        CertificateError::BadStep { offset: 23 },
    ),
];

/// What bytes are read as, where they are not too many.
fn reading(alloc: Global, bytes: &[u8]) -> Result<Certificate, CertificateError> {
    if bytes.len() > MOST_OBJECT {
        return Err(CertificateError::Memory);
    }
    read(alloc, bytes)
}

/// Whether bytes are a certificate that is written as they are.
fn is_written_again(alloc: Global, bytes: &[u8]) -> bool {
    if bytes.len() > MOST_OBJECT {
        return false;
    }
    let Ok(certificate) = read(alloc, bytes) else {
        return false;
    };
    let Ok(written) = write(alloc, &certificate) else {
        return false;
    };
    written.as_slice() == bytes
}

#[test]
fn certificates_are_written_again(rt: HostRuntime) -> Result<(), Fail> {
    for bytes in [NOTHING, READY, KINDS] {
        assert!(rt; is_written_again(rt.alloc(), bytes), "{bytes:?}");
    }
    Ok(())
}

/// The last fact and the second step of an entry.
fn middle_of(entry: &Entry) -> Option<(Fact, Step)> {
    let fact = entry.facts.get(1)?;
    let step = entry.steps.get(1)?;
    Some((*fact, *step))
}

#[test]
fn fields_are_read(rt: HostRuntime) -> Result<(), Fail> {
    let Ok(certificate) = reading(rt.alloc(), KINDS) else {
        return Err(Fail::from("not read"));
    };
    let [first, second] = certificate.entries.as_slice() else {
        return Err(Fail::from("other entries"));
    };
    let fact = Fact {
        source: Source::Literal(-7),
        operand: WindowOperand::Literal(i32::MIN),
    };
    let step = Step::Join {
        branch: 1,
        on_yes: 2,
        on_no: 10,
    };
    assert_eq!(rt; middle_of(first), Some((fact, step)));
    let opening = Opening {
        enters: true,
        window: 8,
        inside: Some(2),
    };
    assert_eq!(rt; first.opening, opening);
    assert_eq!(rt; (second.row, second.rank), (9, u32::MAX));
    let opening = Opening {
        enters: false,
        window: 4,
        inside: None,
    };
    assert_eq!(rt; second.opening, opening);
    Ok(())
}

#[test]
fn bytes_are_refused(rt: HostRuntime) -> Result<(), Fail> {
    for (bytes, why) in REFUSED {
        assert_eq!(rt; reading(rt.alloc(), bytes).err(), Some(why), "{bytes:?}");
    }
    Ok(())
}
