// SPDX-License-Identifier: Apache-2.0
// SPDX-FileCopyrightText: Copyright the Vortex contributors

// The nodes of the flat form.
ghost use Rattle.std.specs.Prelude.{◌≡◌};
ghost use Rattle.c_arrow.specs.Flags.{flags_of as flags_spec, has_sorted_keys as sorted_keys_spec, is_nullable as nullable_spec};

/// One field of a schema in Arrow's C data interface. The node of a field is followed by the nodes of its children, each
/// with what belongs to it, and then by those of the type of its dictionary's values. The bytes of its format, its name
/// and its metadata are the next in the pool of texts.
#[repr(C)]
#[derive(Clone, Copy, Debug, PartialEq, Eq)]
pub struct ArrowNode {
    /// The flags of the struct: 1 if the dictionary is ordered, 2 if the field is nullable, and 4 if the keys of the map
    /// are sorted.
    pub flags: u64,
    /// The number of bytes of the format.
    pub format_length: usize,
    /// The number of bytes of the name, which is 0 if there is no name.
    pub name_length: usize,
    /// The number of bytes of the metadata as they lie in memory, which is 0 if there is no metadata.
    pub metadata_length: usize,
    /// The number of children.
    pub child_count: usize,
    /// 1 if the type of the values of a dictionary follows, and otherwise 0.
    pub has_dictionary: u32,
    /// 0, or what is wrong with the struct of this field: 1 if the schema was released, 2 if the format is NULL, 3 if a
    /// child or the array of children is NULL, 4 if a count is negative or too large, 5 if more than 300 fields are
    /// inside one another, and 6 if there are more than 2^24 fields.
    pub fault: u32,
}

// The flag of a nullable field.
const NULLABLE: u64 = 2;
// The flag of a map whose keys are sorted.
const KEYS_SORTED: u64 = 4;

impl ArrowNode {
    #[tactic(auto, using(crate::proofs::Flags::flags))]
    pub(crate) fn is_nullable(&self) -> bool
        ensures { result ≡ nullable_spec self.now.flags }
    {
        self.flags & NULLABLE != 0
    }

    #[tactic(auto, using(crate::proofs::Flags::flags))]
    pub(crate) fn has_sorted_keys(&self) -> bool
        ensures { result ≡ sorted_keys_spec self.now.flags }
    {
        self.flags & KEYS_SORTED != 0
    }
}

/// Returns the flags of a field.
pub(crate) fn flags_of(is_nullable: bool, has_sorted_keys: bool) -> u64
    ensures { result ≡ flags_spec is_nullable has_sorted_keys }
{
    NULLABLE * u64::from(is_nullable) + KEYS_SORTED * u64::from(has_sorted_keys)
}
