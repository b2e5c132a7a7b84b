// The known tags, and the lengths that their values may have.
ghost use Rattle.std.specs.Prelude.{◌≡◌};
ghost use Rattle.advert.specs.Tags.{rule_in, rule_of, mark_of};

// How an entry's tag and length stand to the table.
#[derive(Clone, Copy, Debug, PartialEq, Eq)]
pub enum Mark {
    Known,
    Unknown,
    OtherLength,
}

// What the table says of a tag's value: the tag is not there, every length fits, or only one does.
// Kept: no plainer: three cases of one table, which `mark_of` tells apart in one match; an Option would nest them.
#[derive(Clone, Copy)]
pub enum Rule {
    NotThere,
    AnyLength,
    OneLength(usize),
}

#[derive(Clone, Copy)]
pub struct TagRow(pub u8, pub Rule);

// The Global and the SHTP Advertisement Tags of 004.
const TAGS: [TagRow; 11] = [
    TagRow(1, Rule::AnyLength), // GUID
    TagRow(2, Rule::AnyLength), // MaxCargoPlusHeaderWrite
    TagRow(3, Rule::AnyLength), // MaxCargoPlusHeaderRead
    TagRow(4, Rule::AnyLength), // MaxTransferWrite
    TagRow(5, Rule::AnyLength), // MaxTransferRead
    TagRow(6, Rule::AnyLength), // NormalChannel
    TagRow(7, Rule::AnyLength), // WakeChannel
    TagRow(8, Rule::AnyLength), // AppName
    TagRow(9, Rule::AnyLength), // ChannelName
    TagRow(0x80, Rule::AnyLength), // SHTP Version
    TagRow(0x81, Rule::OneLength(4)), // SHTP over UART Timeout, 32 bits
];

// Of rows, the first that has the tag.
#[tactic(auto, unfolding(crate::specs::Tags::rule_in))]
fn rule_in(rows: &[TagRow], tag: u8) -> Rule
    ensures { result ≡ rule_in rows.now tag }
{
    rows.iter()
        .find(|row| row.0 == tag)
        .map_or(Rule::NotThere, |row| row.1)
}

fn rule_of(tag: u8) -> Rule
    ensures { result ≡ rule_of tag }
{
    rule_in(&TAGS, tag)
}

pub(crate) fn mark_of(tag: u8, length: usize) -> Mark
    ensures { result ≡ mark_of tag length }
{
    match rule_of(tag) {
        Rule::NotThere => Mark::Unknown,
        Rule::AnyLength => Mark::Known,
        Rule::OneLength(fixed) if length == fixed => Mark::Known,
        Rule::OneLength(_) => Mark::OtherLength,
    }
}
