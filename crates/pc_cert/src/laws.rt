//! Laws of the format, of every certificate and all bytes. Each is proved; nothing runs.

ghost use Rattle.pc_cert.specs.Laws.{OneTextOneCertificate, ReadsExactlyTexts, LongerIsTrailing};

/// Each text is the text of one certificate.
pub fn one_certificate()
    ensures { OneTextOneCertificate }
{}

/// Bytes are read as a certificate exactly where they are its text.
pub fn reads_exactly_texts()
    ensures { ReadsExactlyTexts }
{}

/// What follows a certificate's text is refused at its first byte.
pub fn longer_is_trailing()
    ensures { LongerIsTrailing }
{}
