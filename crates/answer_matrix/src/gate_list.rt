// Kind 4: the gates of a matrix.

ghost use Rattle.std.specs.Prelude.{◌≡◌, ℕ, ◌+◌, ◌*◌, ◌≤◌, length};
ghost use Rattle.refusal.specs.Refusals.{answer};
ghost use Rattle.field.specs.Polynomial.{degree};
ghost use Rattle.lines.specs.Numbers.{entry};
ghost use Rattle.gates.specs.Gates.{outputs};
ghost use Rattle.text.specs.Writing.{Wrote};
ghost use Rattle.reply.specs.Due.{gate_lines};
ghost use Rattle.reply.specs.Answered.{RepliedBy};
ghost use Rattle.answer_matrix.specs.declared.gate_list.Part.TheVariants.{Gates, Carrier};
ghost use Rattle.answer_matrix.specs.Steps.Outputs.{output_text, output_texts};

use crate::square::Matrix;
use refusal::Refusal;
use text::Writer;

// What is written of an output bit: its gates, or the number that carries it.
#[derive(Clone, Copy)]
enum Part {
    Gates,
    Carrier,
}

// Writes the gates of an output bit with these inputs, numbered from `next` on.
fn put_gates(writer: &mut Writer, next: u32, inputs: &[u8])
    requires { (length inputs.now ≤ 64) × (next ≤ 900000) × (writer.old.at + length (output_text Gates next inputs.now) ≤ length writer.old.space.now) }
    ensures { Wrote writer.old writer.new (output_text Gates next inputs.now) }
{
    if let [first, rest @ ..] = inputs {
        let mut running = u32::from(*first);
        for (k, input) in rest.iter().enumerate() {
            writer.put_line(&[running, u32::from(*input)]);
            running = next + k as u32;
        }
    }
}

// Writes the number that carries an output bit with these inputs, whose gates are numbered from `next` on.
fn put_carrier(writer: &mut Writer, next: u32, inputs: &[u8])
    requires { (length inputs.now ≤ 64) × (next ≤ 900000) × (writer.old.at + length (output_text Carrier next inputs.now) ≤ length writer.old.space.now) }
    ensures { Wrote writer.old writer.new (output_text Carrier next inputs.now) }
{
    writer.put_line(&[gates::carrier_of(next, inputs)]);
}

// Writes the gates of an output bit, or its carrier.
fn put_output(writer: &mut Writer, next: u32, inputs: &[u8], part: Part)
    requires { (length inputs.now ≤ 64) × (next ≤ 900000) × (writer.old.at + length (output_text part next inputs.now) ≤ length writer.old.space.now) }
    ensures { Wrote writer.old writer.new (output_text part next inputs.now) }
{
    match part {
        Part::Gates => put_gates(writer, next, inputs),
        Part::Carrier => put_carrier(writer, next, inputs),
    }
}

// Writes the gates of all output bits of a matrix, or their carriers.
fn put_outputs(writer: &mut Writer, matrix: Matrix, part: Part)
    requires { let p = matrix.field.polynomial in
        writer.old.at + length (output_texts part (matrix.order * degree p) (outputs p matrix.order (entry matrix.entries))) ≤ length writer.old.space.now }
    ensures { let p = matrix.field.polynomial in
        Wrote writer.old writer.new (output_texts part (matrix.order * degree p) (outputs p matrix.order (entry matrix.entries))) }
{
    let bits = matrix.order * usize::from(matrix.field.degree());
    let mut next = bits as u32;
    for o in 0..bits {
        let found = gates::inputs_at(matrix.field, matrix.entries, matrix.order, o);
        put_output(writer, next, &found.list[..found.count], part);
        next += gates::gate_count(found.count) as u32;
    }
}

// Writes the gates of a matrix, if they fit.
pub fn put_gate_list(space: &mut [u8], matrix: Matrix) -> Result<usize, Refusal>
    ensures { RepliedBy (answer 0 (gate_lines matrix.field.polynomial matrix.order (entry matrix.entries))) space.old space.new result }
{
    let count = lines::count::matrix_count(matrix.field, matrix.entries, matrix.order);
    let bits = matrix.order * usize::from(matrix.field.degree());
    if space.len() < 13 + 13 * count as usize + 7 * bits {
        return Err(Refusal::ShortSpace);
    }
    let mut writer = Writer { space, at: 0 };
    writer.put_line(&[0, count]);
    put_outputs(&mut writer, matrix, Part::Gates);
    put_outputs(&mut writer, matrix, Part::Carrier);
    Ok(writer.at)
}
