// The lines of the listing and of the trip: what a piece of news, and what an odometer heard, look like as text.
#![tactic(auto)]

mod text;
mod trips;

ghost use Rattle.std.specs.Prelude.{◌≡◌, length};
ghost use Rattle.lines.specs.Line as says;
ghost use Rattle.lines.specs.Trip as trip;

use fields::Fields;
use listener::News;
use odometer::Heard;
use refusals::Refusal;

// No line is longer: proofs/Longest.antt.
pub const LONGEST: usize = 128;

// Writes a text to the front of `out`.
#[tactic(auto, using(laws::proofs::Tests::tests), unfolding(crate::specs::Line::written, crate::specs::Line::output_after))]
fn write(text: &[u8], out: &mut [u8]) -> Result<usize, Refusal>
    ensures value { result ≡ says.written text.now (length out.old) }
    ensures out_after { out.new ≡ says.output_after text.now out.old }
{
    if out.len() < text.len() {
        return Err(Refusal::ShortOutput);
    }
    out[..text.len()].copy_from_slice(text);
    Ok(text.len())
}

// Writes the heading to the front of `out`.
pub fn heading(out: &mut [u8]) -> Result<usize, Refusal>
    ensures value { result ≡ says.written says.heading (length out.old) }
    ensures out_after { out.new ≡ says.output_after says.heading out.old }
{
    write(b"event\tchannel\tbytes\tnumber\tgap\tdropped\n", out)
}

// Writes the line of a piece of news to the front of `out`.
pub fn line(news: News, out: &mut [u8]) -> Result<usize, Refusal>
    ensures value { result ≡ says.written (says.line_of news) (length out.old) }
    ensures out_after { out.new ≡ says.output_after (says.line_of news) out.old }
{
    // Kept: this tail stands three times; tried: one helper over a closure, each call of which needs proof files.
    let mut line = [0u8; LONGEST];
    let n = text::spell(news, &mut line);
    write(&line[..n], out)
}

// Writes the line of these fields to the front of `out`.
pub fn fields_line(f: Fields, out: &mut [u8]) -> Result<usize, Refusal>
    ensures value { result ≡ says.written (says.text_of f) (length out.old) }
    ensures out_after { out.new ≡ says.output_after (says.text_of f) out.old }
{
    let mut line = [0u8; LONGEST];
    let n = text::put_fields(f, &mut line);
    write(&line[..n], out)
}

// Writes the trip's heading to the front of `out`.
pub fn trip_heading(out: &mut [u8]) -> Result<usize, Refusal>
    ensures value { result ≡ says.written trip.trip_heading (length out.old) }
    ensures out_after { out.new ≡ says.output_after trip.trip_heading out.old }
{
    write(b"event\ttotal\tturns\tmillimetres\n", out)
}

// Writes the line of what an odometer made of a cargo to the front of `out`. One passed over gives no line.
pub fn trip_line(heard: Heard, out: &mut [u8]) -> Result<usize, Refusal>
    ensures value { result ≡ says.written (trip.line_of_heard heard) (length out.old) }
    ensures out_after { out.new ≡ says.output_after (trip.line_of_heard heard) out.old }
{
    let mut line = [0u8; LONGEST];
    let n = trips::spell(heard, &mut line);
    write(&line[..n], out)
}
