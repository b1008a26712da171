// Worked examples of the definitions, callers that have the promise and the published algorithms from the contracts, a small procedure, and tests of the calls.
#![tactic(auto)]

ghost use Rattle.std.specs.Prelude.{◌≡◌, length};
ghost use Rattle.trials.specs.Worked.{computed, expected};

#[cfg(test)]
mod asserts;
#[cfg(test)]
mod books;
#[cfg(test)]
mod phases;
mod readings;
#[cfg(test)]
mod refused;
mod rounds;
#[cfg(test)]
mod rules;
#[cfg(test)]
mod runs;
#[cfg(test)]
mod setups;
#[cfg(test)]
mod texts;
mod three;
#[cfg(test)]
mod trios;
mod unison;

// The worked examples agree with the definitions. Answers how many there are.
pub fn worked_examples() -> usize
    ensures agree { computed ≡ expected }
    ensures count { result ≡ length expected }
{
    17
}
