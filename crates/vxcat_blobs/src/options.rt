//! The options after the words of a command.

ghost use Rattle.std.specs.Prelude.{◌≡◌, ◌≢◌, ℕ, List, ◌++◌, IfSome, IfNone, option_map};
ghost use Rattle.vxcat_blobs.specs.Options.{IsInRange, Setting, setting_words};
ghost use Rattle.vxcat_blobs.specs.GivenOptions.{Given, Gives, given_in, none_given, setting_of, with_setting};

use vx_types::Name;
use vxcat_store::decimal_number;

/// The greatest number of rows of a listing.
pub const MAX_ROWS: u64 = 1000;

/// An option after the words of a command.
#[derive(Clone, Copy)]
pub enum Choice<'a> {
    /// `--pad OFFSET`: the blob is written with pads, as if it stood at this position.
    Pad(u64),
    /// `--rows N`: the listing has at most this many rows.
    Rows(u64),
    /// `--allow FILE`: only the identifiers of this file are allowed in the new blob.
    Allow(&'a Name),
    /// `--unknown`: unknown encodings and unknown extensions are allowed.
    Unknown,
    /// `--deep`: deep trees are read and written.
    Deep,
    /// `--rev2`: primitives have two identifiers.
    Revised,
}

/// The options of a command, at most one of each kind.
#[derive(Clone, Copy)]
pub struct Options<'a> {
    pub pad: Option<u64>,
    pub rows: Option<u64>,
    pub allow: Option<&'a Name>,
    pub unknown: bool,
    pub deep: bool,
    pub revised: bool,
}

impl<'a> Options<'a> {
    /// No option is given.
    pub fn none() -> Options<'a>
        ensures { given_in result ≡ none_given }
    {
        Options {
            pad: None,
            rows: None,
            allow: None,
            unknown: false,
            deep: false,
            revised: false,
        }
    }

    /// The options with one more; `None` where one of its kind is there already.
    pub fn with(self, choice: Choice<'a>) -> Option<Options<'a>>
        ensures { option_map given_in result ≡ with_setting (given_in self.entry) (setting_of choice.entry) }
    {
        match choice {
            Choice::Pad(offset) if self.pad.is_none() => Some(Options {
                pad: Some(offset),
                ..self
            }),
            Choice::Rows(count) if self.rows.is_none() => Some(Options {
                rows: Some(count),
                ..self
            }),
            Choice::Allow(name) if self.allow.is_none() => Some(Options {
                allow: Some(name),
                ..self
            }),
            Choice::Unknown if !self.unknown => Some(Options {
                unknown: true,
                ..self
            }),
            Choice::Deep if !self.deep => Some(Options { deep: true, ..self }),
            Choice::Revised if !self.revised => Some(Options {
                revised: true,
                ..self
            }),
            _ => None,
        }
    }
}

/// The option at the front of the words, and the words after it; `None` where none stands there.
pub fn next_choice<'a>(words: &'a [Name]) -> Option<(Choice<'a>, &'a [Name])>
    ensures spelled { IfSome result (λ found. words.now ≡ setting_words (setting_of found.0) ++ found.1.now) }
    ensures in_range { IfSome result (λ found. IsInRange (setting_of found.0)) }
    ensures none { IfNone result ((setting : Setting) (rest : List (List ℕ)) → IsInRange setting
        → words.now ≢ setting_words setting ++ rest) }
{
    let (option, after) = words.split_first()?;
    if option.as_str() == "--unknown" {
        return Some((Choice::Unknown, after));
    }
    if option.as_str() == "--deep" {
        return Some((Choice::Deep, after));
    }
    if option.as_str() == "--rev2" {
        return Some((Choice::Revised, after));
    }
    let (value, rest) = after.split_first()?;
    if option.as_str() == "--allow" {
        return Some((Choice::Allow(value), rest));
    }
    let number = decimal_number(value.as_str())?;
    if option.as_str() == "--pad" {
        return Some((Choice::Pad(number), rest));
    }
    if option.as_str() != "--rows" {
        return None;
    }
    if number > MAX_ROWS {
        return None;
    }
    Some((Choice::Rows(number), rest))
}

/// The options that the words are, added to those before; `None` where the words are no options or two are of one kind.
pub fn parse_options<'a>(words: &'a [Name], before: Options<'a>) -> Option<Options<'a>>
    ensures given { IfSome result (λ options. Gives (given_in before.entry) words.now (given_in options)) }
    ensures none { IfNone result ((after : Given) → ¬ (Gives (given_in before.entry) words.now after)) }
{
    if words.is_empty() {
        return Some(before);
    }
    let (choice, rest) = next_choice(words)?;
    parse_options(rest, before.with(choice)?)
}
