ghost use Rattle.std.specs.Prelude.{◌≡◌, map, option_map, Some};
ghost use Rattle.ed_words.specs.Decimals.{number_within};
ghost use Rattle.ed_command.specs.Held.{options_in};
ghost use Rattle.ed_command.specs.Settings.{has_only, may_be_given, option_value, settings_of, size_of};

use crate::windows::window_named;
use ed_run::{Settings, Window};
use ed_words::{Size, number_within};

/// The values of the four options, as the words give them.
#[derive(Clone, Copy)]
pub(crate) struct Options<'a> {
    pub(crate) limits: &'a [&'a str],
    pub(crate) resumes: &'a [&'a str],
    pub(crate) post_mortems: &'a [&'a str],
    pub(crate) stores: &'a [&'a str],
}

impl Options<'_> {
    /// What the options set.
    pub(crate) fn settings(&self) -> Option<Settings>
        ensures { result ≡ settings_of (options_in self.now) }
    {
        let size = self.size()?;
        let post_mortem = match self.post_mortems {
            [] => None,
            [text] => Some(window_named(text, size)?),
            _ => return None,
        };
        Some(Settings {
            limit: number_setting(self.limits, 10_000_000, 1, 100_000_000)?,
            resumes: number_setting(self.resumes, 0, 0, 1000)?,
            size,
            post_mortem,
        })
    }

    /// The size of the store.
    fn size(&self) -> Option<Size>
        ensures { result ≡ size_of (options_in self.now) }
    {
        match self.stores {
            [] => Some(Size::Full),
            [text] => match *text {
                "512" => Some(Size::Small),
                "1024" => Some(Size::Full),
                _ => None,
            },
            _ => None,
        }
    }

    /// Whether the options that are given are among these names.
    pub(crate) fn has_only(&self, names: &[&str]) -> bool
        ensures { result ≡ has_only (map (λ n. n.now) names.now) (options_in self.now) }
    {
        may_be_given(names, "limit", self.limits)
            && may_be_given(names, "resume", self.resumes)
            && may_be_given(names, "post-mortem", self.post_mortems)
            && may_be_given(names, "store", self.stores)
    }
}

/// The number of an option that may be given once, or its default.
fn number_setting(values: &[&str], default: u32, least: u32, most: u32) -> Option<u32>
    ensures { result ≡ option_value default (number_within least most) (map (λ v. v.now) values.now) }
{
    match values {
        [] => Some(default),
        [value] => number_within(value.as_bytes(), least, most),
        _ => None,
    }
}

/// Whether an option is omitted, or its name is one of these.
fn may_be_given(names: &[&str], name: &str, values: &[&str]) -> bool
    ensures { result ≡ may_be_given (map (λ n. n.now) names.now) name.now (map (λ v. v.now) values.now) }
{
    values.is_empty() || names.contains(&name)
}
