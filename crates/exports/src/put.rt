// Lists put into other lists, item by item in another form.
ghost use Rattle.std.specs.Prelude.{◌≡◌, length, map};

// An item that has another form.
pub(crate) trait Recast<T> {
    ghost form: { Self → T };

    fn recast(&self) -> T
        ensures { result ≡ form self.now };
}

// The items in their other form. By index, since over a `zip` a loop's invariant has no name for the list.
#[tactic(auto, using(crate::proofs::Putting::put_next, crate::proofs::Putting::put_all))]
pub(crate) fn put<T: Drop, A: Recast<T>>(items: &[A], room: &mut [T])
    requires { length items.now ≡ length room.old }
    ensures { room.new ≡ map A.Recast.form items.now }
{
    for (i, place) in room.iter_mut().enumerate() {
        *place = items[i].recast();
    }
}
