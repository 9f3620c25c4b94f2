//! The search for a value by its name.

ghost use Rattle.std.specs.Prelude.{◌≡◌, List, ℕ, find, bytes_eq, IfSome, Some};

/// A type of values that have names.
pub trait Named: Copy {
    // Its name, as bytes.
    ghost name_of: { Self → List ℕ };

    /// Returns its name.
    fn name(self) -> &'static str
        ensures { result.now ≡ name_of self };
}

/// Returns the first of these values whose name is the text.
pub fn find_by_name<T: Named>(values: &[T], text: &[u8]) -> Option<T>
    ensures found { IfSome result (λ value. text.now ≡ T.name_of value) }
    // A value is found by its name if it is the first of that name.
    ensures only { (value : T) → find (λ other. bytes_eq (T.name_of value) (T.name_of other)) values.now ≡ Some value
        → text.now ≡ T.name_of value → result ≡ Some value }
{
    values
        .iter()
        .copied()
        .find(|value| text == value.name().as_bytes())
}
