// The numbers of an answer are put into a lent list, if that has their number of places.
ghost use Rattle.std.specs.Prelude.{◌≡◌};
ghost use Rattle.c_answers.specs.Told.{told_status, told_left};

// The status is handed on, and the list gets the numbers; a list of another length gives 1 and is left as it was.
pub fn put<T: Copy, const N: usize>(answer: &mut [T], status: u8, numbers: [T; N]) -> u8
    ensures { (result ≡ told_status N answer.old status) × (answer.new ≡ told_left N answer.old numbers) }
{
    if answer.len() != N {
        return 1;
    }
    answer.copy_from_slice(&numbers);
    status
}
