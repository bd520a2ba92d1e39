//! What a whole text is.

ghost use Rattle.std.specs.Prelude.{◌≡◌, option_map};
ghost use Rattle.mon_settings.specs.Texts.{whole, datapath_of};

use mon_text::datapath_at;

/// What is read of a text, where nothing stands behind it.
pub fn whole<X: Copy>(part: Option<(X, &[u8])>) -> Option<X>
    ensures { result ≡ whole (option_map (λ p. (p.0, p.1.now)) part.entry) }
{
    let (read, rest) = part?;
    if rest.is_empty() { Some(read) } else { None }
}

/// The datapath id that a text is: 16 lower hexadecimal digits.
pub fn datapath_of(text: &[u8]) -> Option<u64>
    ensures { result ≡ datapath_of text.now }
{
    whole(datapath_at(text))
}
