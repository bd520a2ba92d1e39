//! What spells certificates, whatever they are. These functions do nothing: each is its law.

ghost use Rattle.std.specs.Prelude.{◌≡◌, ℕ, List};
ghost use Rattle.std.specs.List.{flat_map};
ghost use Rattle.mon_header.specs.declared.header.Header.{Header};
ghost use Rattle.mon_header.specs.Places.{bits_of, header_bits};
ghost use Rattle.mon_certificate.specs.declared.certificate.Certificate.{Certificate};
ghost use Rattle.mon_certificate_file.specs.CertificateFile.{Spells, IsCertificateFile};
ghost use Rattle.mon_text.specs.BadLines.{IsFirstBadLine};
ghost use Rattle.mon_certificate_file.specs.Headers.{header_bytes};

/// A text is of at most one list of certificates.
pub fn spelling_is_of_one()
    ensures { (text : List ℕ) (a b : List Certificate) → Spells text a → Spells text b → a ≡ b }
{}

/// The bytes that stand for a header have its 264 bits, eight to a byte, the most significant one first.
pub fn bytes_have_the_bits()
    ensures { (h : Header) → flat_map (bits_of 8) (header_bytes h) ≡ header_bits h }
{}

/// A text has at most one first bad line, so the offset that `read_certificates` gives is a function of the text.
pub fn one_line_is_the_first_bad_one()
    ensures { (text : List ℕ) (a b : ℕ) → IsFirstBadLine IsCertificateFile text a → IsFirstBadLine IsCertificateFile text b → a ≡ b }
{}
