//! Values in an order, as messages hold them.

ghost use Rattle.std.specs.Prelude.{◌≡◌};
ghost use Rattle.std.specs.Cmp.Lexicographic.{pointwise, lists_per, lists_equiv};

use std::marker::Model;

/// Values in an order. A clause sees them as a list.
#[derive(Drop)]
pub struct XdrList<T> {
    values: Vec<T>,
}

impl<T> Model for XdrList<T> {
    ghost use Rattle.std.specs.Prelude.{List};

    ghost Value = { List T };

    ghost view = { λ l. l.values.items };
}

impl<T: PartialEq> PartialEq for XdrList<T> {
    ghost eq = { λ x y. pointwise T.eq x y };

    ghost laws = { lists_per T.laws };

    fn eq(&self, other: &Self) -> bool {
        self.values == other.values
    }
}

impl<T: Eq> Eq for XdrList<T> {
    ghost laws = { lists_equiv T.Eq.laws };
}

impl<T> XdrList<T> {
    /// The values in this order.
    pub fn from_vec(values: Vec<T>) -> XdrList<T>
        ensures { result ≡ values.items }
    {
        XdrList { values }
    }

    /// The values, with no memory taken.
    pub fn into_vec(self) -> Vec<T>
        ensures { result.items ≡ self }
    {
        let XdrList { values } = self;
        values
    }

    /// The values in their order.
    pub fn as_slice(&self) -> &[T]
        ensures { result.now ≡ self.now }
    {
        self.values.as_slice()
    }
}
