//! Names.

ghost use Rattle.std.specs.Prelude.{◌≡◌, IsTrue, ◌↔◌};
ghost use Rattle.sd_config.specs.Config.{IsName, is_name_byte};

/// Whether a byte may stand in a name.
fn may_be_in_name(byte: u8) -> bool
    ensures { result ≡ is_name_byte byte }
{
    byte.is_ascii_alphanumeric() || byte == b'-' || byte == b'.' || byte == b'_'
}

/// Whether a text is a name.
pub fn is_name(text: &[u8]) -> bool
    ensures { IsTrue result ↔ IsName text.now }
{
    1 <= text.len() && text.len() <= 255 && text.iter().all(|b| may_be_in_name(*b))
}
