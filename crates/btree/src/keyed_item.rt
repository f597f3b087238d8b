//! Where a key stands among others.
ghost use Rattle.std.specs.Prelude.{◌≡◌, ◌≤◌, ℕ, List, length, bytes_eq};
ghost use Rattle.std.specs.List.{list_any, position_or_len};
ghost use Rattle.vo_spec.specs.Values.{key_lt as is_less};

/// What goes by its key: an entry, or a separator, which is one.
pub trait KeyedItem {
    ghost key: { Self → List ℕ };

    fn key_bytes(&self) -> &[u8]
        ensures { result.now ≡ key self.now };
}

/// Whether one of the items has the key.
pub fn has_key<T: KeyedItem>(items: &[T], key: &[u8]) -> bool
    ensures { result ≡ list_any (λ item. bytes_eq (T.key item) key.now) items.now }
{
    position_of(items, key) < items.len()
}

/// How many items stand before the first with the key.
pub fn position_of<T: KeyedItem>(items: &[T], key: &[u8]) -> usize
    ensures place { result ≡ position_or_len (λ item. bytes_eq (T.key item) key.now) items.now }
    ensures within { result ≤ length items.now }
{
    for (place, item) in items.iter().enumerate() {
        if item.key_bytes() == key {
            return place;
        }
    }
    items.len()
}

/// How many items stand before the first of a greater key. So many separators stand before the
/// child to which a search for the key goes.
pub fn position_above<T: KeyedItem>(items: &[T], key: &[u8]) -> usize
    ensures place { result ≡ position_or_len (λ item. is_less key.now (T.key item)) items.now }
    ensures within { result ≤ length items.now }
{
    for (place, item) in items.iter().enumerate() {
        if key_lt(key, item.key_bytes()) {
            return place;
        }
    }
    items.len()
}

/// Whether the first is less.
fn key_lt(a: &[u8], b: &[u8]) -> bool
    ensures { result ≡ is_less a.now b.now }
{
    a.cmp(b).is_lt()
}
