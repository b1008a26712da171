// Shifts that are worked out by the check itself.
ghost use Rattle.cases.specs.Worked.{computed, expected};
ghost use Rattle.std.specs.Prelude.{◌≡◌, length};

// The worked shifts agree with the definition of the answer. Answers how many there are.
pub fn worked_shifts() -> usize
    ensures agree { computed ≡ expected }
    ensures count { result ≡ length expected }
{
    6
}
