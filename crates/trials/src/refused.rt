// What a declined call reports.
use quorum::refusals::Fault;

// The number of the refusal and its place, none where the call is taken.
pub(crate) fn refusal<T: Drop, F>(answer: Result<T, F>) -> Option<(u8, usize)>
where
    Fault: From<F>,
{
    let fault = Fault::from(answer.err()?);
    Some((fault.refusal.number(), fault.place))
}
