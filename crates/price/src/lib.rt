//! Price kinds: what a price, a total of prices and a budget are, how they add and compare, and how they are stored.
#![tactic(auto)]

ghost use Rattle.std.specs.Prelude.{◌≡◌, T, Some, None, MatchOption, ◌≢◌};
ghost use Rattle.price.specs.Forms.{Forms, Storable};
ghost use Rattle.price.specs.Kind.{Operations, Laws};

pub mod additive;
pub mod bottleneck;

// Adding and comparing are the kind's own, and not those of the language's traits: amounts that differ may compare as equal, and the
// laws speak of totals and budgets alone.
/// A price kind. A value is an amount: a price, a total of prices or a budget.
pub trait PriceKind: Copy {
    /// What the kind's amounts are and do.
    ghost operations: { Operations Self };

    /// The total of no prices.
    fn zero() -> Self
        ensures { result ≡ operations.zero };

    /// The total of both: exact up to 1,023 admitted prices, by the laws, and defined for any two amounts.
    fn plus(self, other: Self) -> Self
        ensures { result ≡ operations.added self other };

    /// Whether this amount is not above the other.
    fn not_above(self, other: Self) -> bool
        ensures { result ≡ operations.not_above self other };

    /// Whether this amount is an admitted price.
    fn is_price(self) -> bool
        ensures { result ≡ operations.price self };

    /// Whether this amount is an admitted budget.
    fn is_budget(self) -> bool
        ensures { result ≡ operations.budget self };

    ghost lawful: { Laws operations };
}

/// A price kind that files can hold: it has a code of one byte, and a form of four bytes for each price and each budget.
pub trait StorableKind: PriceKind {
    /// The code, the forms, and what each form stands for.
    ghost forms: { Forms Self };

    // The code is a byte of the file, so it is a number.
    /// The code.
    fn code() -> u8
        ensures { result ≡ forms.code };

    // Prices and budgets are asked for apart, since a kind may store them differently.
    /// The form of a price, which reads back to it if it is admitted.
    fn price_form(self) -> [u8; 4]
        ensures value { result ≡ forms.price_form self }
        ensures back { T (Self.PriceKind.operations.price self) → forms.price_of result ≡ Some self };

    /// The price that a form stands for, if any: the only one that has this form.
    fn price_of(form: [u8; 4]) -> Option<Self>
        ensures value { result ≡ forms.price_of form }
        ensures sole { MatchOption result ((x : Self) → T (Self.PriceKind.operations.price x) → forms.price_form x ≢ form) (λ x. T (Self.PriceKind.operations.price x) × (forms.price_form x ≡ form)) };

    /// The form of a budget, which reads back to it if it is admitted.
    fn budget_form(self) -> [u8; 4]
        ensures value { result ≡ forms.budget_form self }
        ensures back { T (Self.PriceKind.operations.budget self) → forms.budget_of result ≡ Some self };

    /// The budget that a form stands for, if any: the only one that has this form.
    fn budget_of(form: [u8; 4]) -> Option<Self>
        ensures value { result ≡ forms.budget_of form }
        ensures sole { MatchOption result ((x : Self) → T (Self.PriceKind.operations.budget x) → forms.budget_form x ≢ form) (λ x. T (Self.PriceKind.operations.budget x) × (forms.budget_form x ≡ form)) };

    /// Each admitted price and budget has exactly one form, which reads back to it, and every other form is none.
    ghost tied: { Storable Self.PriceKind.operations forms };
}
