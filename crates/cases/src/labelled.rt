ghost use Rattle.std.specs.Prelude.{◌≡◌, ℕ, List, IfSome};

// A kind of value that stands under a label in print.
pub trait Labelled: Copy {
    // the bytes of the label
    ghost label_text: { Self → List ℕ };

    // The label in print.
    fn label(self) -> &'static str
        ensures { result.now ≡ label_text self };
}

// The one of some values that a text labels.
pub fn with_label<T: Labelled>(values: &[T], text: &str) -> Option<T>
    ensures { IfSome result (λ value. T.label_text value ≡ text.now) }
{
    values.iter().copied().find(|value| value.label() == text)
}
