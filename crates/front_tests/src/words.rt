//! Short answers in words.

/// Words round a number, if there is one.
#[derive(Clone, Copy)]
pub(crate) struct Words {
    pub(crate) before: &'static str,
    pub(crate) number: Option<i128>,
    pub(crate) behind: &'static str,
}

/// Words without a number.
pub(crate) fn plain(words: &'static str) -> Words {
    Words {
        before: words,
        number: None,
        behind: "",
    }
}

/// Words round a number.
pub(crate) fn numbered(before: &'static str, number: i128, behind: &'static str) -> Words {
    Words {
        before,
        number: Some(number),
        behind,
    }
}

impl Words {
    /// Whether this is the text of the words.
    pub(crate) fn are(self, text: &str) -> bool {
        let Some(rest) = text.strip_prefix(self.before) else {
            return false
        };
        let Some(digits) = rest.strip_suffix(self.behind) else {
            return false
        };
        match self.number {
            Some(number) => digits.parse::<i128>() == Ok(number),
            None => digits.is_empty(),
        }
    }
}
