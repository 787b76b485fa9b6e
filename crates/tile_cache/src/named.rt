ghost use Rattle.std.specs.Prelude.{◌≡◌};

/// Values that name their key.
pub trait Named<K> {
    /// The key that a value names.
    ghost named: { Self → K };

    /// The key of the value.
    fn key(&self) -> &K
        ensures { result.now ≡ named self.now };
}
