ghost use Rattle.std.specs.Prelude.{◌∷◌, ◌++◌, List, []};

/// What is shown each verdict, in order.
pub trait Watch<V> {
    // Whether these verdicts, in this order, may be those that it saw.
    ghost saw: { Self → List V → Type 0 };

    /// Shows it the next verdict.
    fn see(&mut self, verdict: V)
        ensures { (before : List V) → saw self.old before → saw self.new (before ++ verdict ∷ []) };
}
