// The row finder for callers in C: the static library of `include/rowfind.h`.

#![tactic(auto)]

ghost use Rattle.reply.specs.Answered.{Answered};

// Answers a request text in the lent space: the number is returned, and the length of the answer is stored.
#[unsafe(no_mangle)]
pub extern "C" fn rowfind_answer(request: &[u8], space: &mut [u8], length: &mut usize) -> u32
    ensures { Answered request.now space.old space.new result length.new }
{
    answer::rowfind_answer(request, space, length)
}
