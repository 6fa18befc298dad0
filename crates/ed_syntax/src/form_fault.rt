//! Why parts of a line don't say what is looked for in them, and values that may be out of their range.
/// Why parts don't say what is looked for in them.
#[derive(Clone, Copy)]
pub(crate) enum FormFault {
    /// They don't have its form.
    NotThisForm,
    /// They have its form, and a number is out of its range.
    OutOfRange,
}

/// A value whose number is in its range; None if it is out of its range.
pub(crate) type Ranged<T> = Option<T>;
