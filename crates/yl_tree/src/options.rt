//! The options of the rules on keys and anchors.

/// The options of the rule key-duplicates.
#[derive(Clone, Copy)]
pub struct KeyDuplicatesOptions {
    /// Whether a `<<` that repeats an earlier one of its mapping is reported.
    pub forbid_duplicated_merge_keys: bool,
}

impl KeyDuplicatesOptions {
    ghost use Rattle.std.specs.Prelude.{◌≡◌, false};

    /// Returns the options of yamllint's default configuration.
    pub fn standard() -> KeyDuplicatesOptions
        ensures { result ≡ record { forbid_duplicated_merge_keys = false } }
    {
        KeyDuplicatesOptions {
            forbid_duplicated_merge_keys: false,
        }
    }
}

/// The options of the rule anchors.
#[derive(Clone, Copy)]
pub struct AnchorsOptions {
    /// Whether an alias is reported if no anchor of its name comes before it.
    pub forbid_undeclared_aliases: bool,
    /// Whether an anchor is reported if an earlier anchor has its name.
    pub forbid_duplicated_anchors: bool,
    /// Whether an anchor is reported if no alias refers to it.
    pub forbid_unused_anchors: bool,
}

impl AnchorsOptions {
    ghost use Rattle.std.specs.Prelude.{◌≡◌, true, false};

    /// Returns the options of yamllint's default configuration.
    pub fn standard() -> AnchorsOptions
        ensures { result ≡ record {
          forbid_undeclared_aliases = true;
          forbid_duplicated_anchors = false;
          forbid_unused_anchors = false;
        } }
    {
        AnchorsOptions {
            forbid_undeclared_aliases: true,
            forbid_duplicated_anchors: false,
            forbid_unused_anchors: false,
        }
    }
}

/// The options of the rules on keys and anchors. A rule without options here is off.
#[derive(Clone, Copy)]
pub struct TreeOptions {
    /// The options of the rule key-duplicates, if it is on.
    pub key_duplicates: Option<KeyDuplicatesOptions>,
    /// Whether the rule key-ordering is on. It has no options.
    pub key_ordering: bool,
    /// The options of the rule anchors, if it is on.
    pub anchors: Option<AnchorsOptions>,
}
