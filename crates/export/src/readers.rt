// A message reader lent as a row of numbers.
ghost use Rattle.std.specs.Prelude.{◌≡◌, length, ◌≤◌};
ghost use Rattle.export.specs.Readers as rows;

use reader::{Event, Phase, Reader};
use refusals::Refusal;

#[tactic(auto, using(laws::proofs::Tests::tests), unfolding(crate::specs::Readers::phase_of))]
pub(crate) fn phase_of(x: usize) -> Phase
    ensures { result ≡ rows.phase_of x }
{
    match x {
        0 => Phase::Outside,
        1 => Phase::Inside,
        2 => Phase::Escaped,
        _ => Phase::Long,
    }
}

pub(crate) fn phase_number(phase: Phase) -> usize
    ensures { result ≡ rows.phase_number phase }
{
    phase as usize
}

fn event_kind(event: Event) -> usize
    ensures { result ≡ rows.event_kind event }
{
    match event {
        Event::Nothing => 0,
        Event::Message { .. } => 1,
        Event::Query => 2,
        Event::Notice { .. } => 3,
        Event::Refused(_) => 4,
    }
}

fn event_value(event: Event) -> usize
    ensures { result ≡ rows.event_value event }
{
    match event {
        Event::Message { length } => length,
        Event::Notice { room } => room as usize,
        Event::Refused(refusal) => refusal.number() as usize,
        _ => 0,
    }
}

// The reader after a call, and what was told.
fn told(reader: Reader, event: Event) -> [usize; 4]
    ensures { result ≡ rows.told reader event }
{
    [
        phase_number(reader.phase),
        reader.held,
        event_kind(event),
        event_value(event),
    ]
}

pub(crate) fn load_reader(row: &[usize]) -> Reader
    requires { 2 ≤ length row.now }
    ensures { result ≡ rows.reader_of row.now }
{
    // Kept: no plainer: a pattern over a slice would need an arm for rows that never come.
    Reader {
        phase: phase_of(row[0]),
        held: row[1],
    }
}

// Takes one byte. The lent message buffer holds the message under way.
#[unsafe(no_mangle)]
#[tactic(auto, unfolding(crate::specs::Readers::step_number, crate::specs::Readers::row_stepped, crate::specs::Readers::message_stepped))]
pub extern "C" fn boherlin_step(row: &mut [usize], b: u8, message: &mut [u8]) -> u8
    ensures value { result ≡ rows.step_number row.old b message.old }
    ensures row_after { row.new ≡ rows.row_stepped row.old b message.old }
    ensures message_after { message.new ≡ rows.message_stepped row.old b message.old }
{
    if row.len() != 4 {
        return Refusal::Unsound.number();
    }
    let stepped = load_reader(row).step(b, message);
    row.copy_from_slice(&told(stepped.reader, stepped.event));
    stepped.event.number()
}

// Takes bytes from a place on, until a message closes or the input ends.
#[unsafe(no_mangle)]
#[tactic(auto, unfolding(crate::specs::Readers::read_number, crate::specs::Readers::row_read, crate::specs::Readers::message_read))]
pub extern "C" fn boherlin_read(
    row: &mut [usize],
    input: &[u8],
    from: usize,
    message: &mut [u8],
) -> u8
    ensures value { result ≡ rows.read_number row.old input.now from message.old }
    ensures row_after { row.new ≡ rows.row_read row.old input.now from message.old }
    ensures message_after { message.new ≡ rows.message_read row.old input.now from message.old }
{
    if row.len() != 5 {
        return Refusal::Unsound.number();
    }
    let ran = load_reader(row).read(input, from, message);
    let [phase, held, kind, value] = told(ran.reader, ran.event);
    row.copy_from_slice(&[phase, held, kind, value, ran.next]);
    ran.event.number()
}
