// What a call on a request text replies: the length of the answer or the reason of the refusal, and the texts that are written.
#![tactic(auto)]

ghost use Rattle.std.specs.Prelude.{[], map, ◌+◌, ◌*◌, ◌^◌, ◌<◌, length, sum_by, All};
ghost use Rattle.refusal.specs.Refusals.{number_of, answer};
ghost use Rattle.text.specs.Text.{SixDigits};
ghost use Rattle.reply.specs.Answered.{RepliedBy};

use refusal::Refusal;
use text::Writer;

// Refuses: the line of the number is written where seven bytes are lent.
pub fn refuse(space: &mut [u8], reason: Refusal) -> Result<usize, Refusal>
    ensures { RepliedBy (answer (number_of reason) []) space.old space.new result }
{
    if 7 <= space.len() {
        let mut writer = Writer { space, at: 0 };
        writer.put_line(&[u32::from(reason)]);
    }
    Err(reason)
}

// Writes an answer of these lines, if they fit.
pub fn put_answer(space: &mut [u8], lines: &[&[u32]]) -> Result<usize, Refusal>
    requires { (sum_by (λ line. 6 * length line.now + 1) lines.now < 2 ^ 64) × All (λ line. SixDigits line.now) lines.now }
    ensures { RepliedBy (answer 0 (map (λ line. line.now) lines.now)) space.old space.new result }
{
    let size: usize = lines.iter().map(|line| 6 * line.len() + 1).sum();
    if space.len() < size {
        return Err(Refusal::ShortSpace);
    }
    let mut writer = Writer { space, at: 0 };
    for line in lines {
        writer.put_line(line);
    }
    Ok(writer.at)
}
