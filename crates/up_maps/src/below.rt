//! What a list is searched by.
ghost use Rattle.std.specs.Prelude.{◌≡◌, Bool};

/// A key that items are compared with.
pub trait Below<T> {
    /// Whether the item stands before the key.
    ghost below: { Self → T → Bool };

    /// Whether the item stands before the key.
    fn is_below(&self, item: &T) -> bool
        ensures { result ≡ below self.now item.now };
}
