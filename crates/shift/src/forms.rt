// The forms that the value of a line can have.
ghost use Rattle.std.specs.Prelude.{◌≡◌, ℕ, List, Option};

// What a value can be read into.
pub trait Form: Sized {
    // What the bytes say, where they are of the form.
    ghost form: { List ℕ → Option Self };

    // The value that the bytes write, where they are of the form.
    fn read(value: &[u8]) -> Option<Self>
        ensures { result ≡ Self.form value.now };
}
