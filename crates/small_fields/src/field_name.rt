//! The five fields by name.
ghost use Rattle.std.specs.Prelude.{◌≡◌, Contains, IfNone, IfSome};

/// One of the five fields.
#[derive(Clone, Copy, Debug, PartialEq, Eq)]
pub enum FieldName {
    /// Two elements.
    Two,
    /// Three elements.
    Three,
    /// Five elements.
    Five,
    /// 251 elements.
    TwoFiftyOne,
    /// 256 elements.
    TwoFiftySix,
}

impl FieldName {
    ghost use Rattle.small_fields.specs.FieldName.{field_orders, order_of};

    /// The field of this order. `None` exactly where no field here has it.
    pub fn of(order: u16) -> Option<FieldName>
        ensures known { IfSome result (λ name. order_of name ≡ order) }
        ensures unknown { IfNone result (¬ Contains field_orders order) }
    {
        match order {
            2 => Some(FieldName::Two),
            3 => Some(FieldName::Three),
            5 => Some(FieldName::Five),
            251 => Some(FieldName::TwoFiftyOne),
            256 => Some(FieldName::TwoFiftySix),
            _ => None,
        }
    }

    /// How many elements the field has, which `of` turns back.
    pub fn order(self) -> u16
        ensures { result ≡ order_of self }
    {
        match self {
            FieldName::Two => 2,
            FieldName::Three => 3,
            FieldName::Five => 5,
            FieldName::TwoFiftyOne => 251,
            FieldName::TwoFiftySix => 256,
        }
    }
}
