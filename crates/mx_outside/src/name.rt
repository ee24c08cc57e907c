//! Names of files, below a folder of their own.
ghost use Rattle.std.specs.Prelude.{◌≡◌, ◌↔◌, IsTrue};
ghost use Rattle.std.specs.List.{list_all};
ghost use Rattle.mx_outside.specs.Names as spec;
ghost use Rattle.mx_outside.specs.Names.{IsFileName};

/// The greatest number of bytes of a name.
const MOST_BYTES: usize = 255;

/// Whether this names a file or a folder below the one that holds all files: parts joined by `/`, each of letters,
/// digits, `_`, `-` and `.`, and none of them `.` or `..`, so that no name leaves that folder. An empty part is none.
pub fn is_file_name(name: &str) -> bool
    ensures { IsTrue result ↔ IsFileName name.now }
{
    let bytes = name.as_bytes();
    bytes.len() <= MOST_BYTES && are_parts(bytes)
}

/// Whether all that stands between slashes are parts of a name.
fn are_parts(name: &[u8]) -> bool
    ensures { result ≡ spec.are_parts name.now }
{
    name.split(|byte| *byte == b'/').all(|part| is_part(part))
}

fn is_part(part: &[u8]) -> bool
    ensures { result ≡ spec.is_part part.now }
{
    !part.is_empty() && are_part_bytes(part) && !is_folder(part)
}

fn are_part_bytes(part: &[u8]) -> bool
    ensures { result ≡ list_all spec.is_part_byte part.now }
{
    part.iter().all(|byte| is_part_byte(*byte))
}

/// Whether this is the folder itself or the one above it.
fn is_folder(part: &[u8]) -> bool
    ensures { result ≡ spec.is_folder part.now }
{
    match part {
        b"." => true,
        b".." => true,
        _ => false,
    }
}

fn is_part_byte(byte: u8) -> bool
    ensures { result ≡ spec.is_part_byte byte }
{
    byte.is_ascii_alphanumeric() || byte == b'_' || byte == b'-' || byte == b'.'
}
