//! A file by its name, in a list.
ghost use Rattle.std.specs.Prelude.{◌≡◌, option_map};
ghost use Rattle.outside.specs.MemShelf.{file_at};

use super::NamedFile;

/// The bytes of the first file of that name.
pub fn find<'a>(files: &'a [NamedFile], name: &str) -> Option<&'a [u8]>
    ensures { option_map (λ bytes. bytes.now) result ≡ file_at files.now name.now }
{
    for file in files {
        if file.name.as_str() == name {
            return Some(file.bytes.as_slice());
        }
    }
    None
}
