//! What a label order answers, and the laws that it owes.
ghost use Rattle.std.specs.Prelude.{◌≡◌};
ghost use Rattle.labels.specs.Orders.{Order, OrderLaws};

/// A label order. It means both of its answers, at every code.
pub trait LabelOrder {
    ghost meaning: { Self → Order };

    /// Whether the code is a label of this order.
    fn is_lawful(&self, code: u64) -> bool
        ensures { result ≡ (meaning self.now).lawful code };

    /// Whether label `a` dominates label `b`.
    fn dominates(&self, a: u64, b: u64) -> bool
        ensures { result ≡ (meaning self.now).dominates a b };

    ghost laws: { (s : Self) → OrderLaws (meaning s) };
}
