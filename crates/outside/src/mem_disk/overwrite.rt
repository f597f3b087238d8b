//! A write into bytes that may grow by it.
ghost use Rattle.std.specs.Prelude.{◌≡◌, ◌+◌, ◌≤◌, length, vec_capacity};
ghost use Rattle.outside.specs.DiskModel.{overwrite_at};

/// Writes the piece at a place, with zeros before it where the bytes end earlier.
pub fn overwrite(bytes: &mut Vec<u8>, at: usize, piece: &[u8])
    requires { at + length piece.now ≤ vec_capacity bytes.old }
    ensures items { bytes.new.items ≡ overwrite_at at piece.now bytes.old.items }
    ensures capacity { vec_capacity bytes.old ≤ vec_capacity bytes.new }
{
    if piece.is_empty() {
        return;
    }
    let end = at + piece.len();
    if end < bytes.len() {
        bytes[at..end].copy_from_slice(piece);
    } else {
        bytes.truncate(at);
        bytes.resize(at, 0).unwrap();
        bytes.extend_from_slice(piece).unwrap();
    }
}
