//! The changes of breaks, as parts hold them.

ghost use Rattle.std.specs.Prelude.{◌≡◌, ◌∷◌, [], Bool, true, false, IfOk};
ghost use Rattle.std.specs.String.{string_bytes};
ghost use Rattle.hyphenation_breaks.specs.Ascii.{space};
ghost use Rattle.paragraphs.specs.Private.Changes.{after_bytes, joint_bytes, before_bytes};

use std::alloc::{AllocError, Global};

// The texts on both sides of a part whose breaks change letters.
#[derive(Debug, Drop)]
pub struct Sides<'t> {
    // The second half of the change before it.
    after: String,
    // The text between it and the next part of the same line, with soft hyphens.
    joint: &'t str,
    // The first half of the change after it.
    before: String,
}

// The changes on both sides of a part. Most parts have none. Then they take no memory but their place.
#[derive(Debug, Drop)]
pub struct PartChanges<'t> {
    sides: Option<Box<Sides<'t>>>,
}

impl<'t> PartChanges<'t> {
    // No change.
    #[inline(always)]
    pub(crate) fn none() -> PartChanges<'t>
        ensures after { after_bytes result ≡ [] }
        ensures joint { joint_bytes result true ≡ [] }
        ensures space { joint_bytes result false ≡ space ∷ [] }
        ensures before { before_bytes result ≡ [] }
    {
        PartChanges { sides: None }
    }

    // Makes them of the texts on both sides of a part.
    fn of(
        alloc: Global,
        after: String,
        joint: &'t str,
        before: String,
    ) -> Result<PartChanges<'t>, AllocError>
        ensures after { IfOk result (λ changes. after_bytes changes ≡ string_bytes after) }
        ensures joint { IfOk result (λ changes. (broken : Bool) → joint_bytes changes broken ≡ joint.now) }
        ensures before { IfOk result (λ changes. before_bytes changes ≡ string_bytes before) }
    {
        let sides = Sides {
            after,
            joint,
            before,
        };
        Ok(PartChanges {
            sides: Some(Box::new(alloc, sides)?),
        })
    }

    // Makes those of a part that ends at a break.
    #[inline(always)]
    pub(crate) fn at_break(
        alloc: Global,
        after: String,
        joint: &'t str,
        before: &str,
    ) -> Result<PartChanges<'t>, AllocError>
        ensures after { IfOk result (λ changes. after_bytes changes ≡ string_bytes after) }
        ensures joint { IfOk result (λ changes. joint_bytes changes true ≡ joint.now) }
        ensures before { IfOk result (λ changes. before_bytes changes ≡ before.now) }
    {
        if after.is_empty() && joint.is_empty() && before.is_empty() {
            return Ok(PartChanges::none());
        }
        let owned = String::from_str(alloc, before)?;
        PartChanges::of(alloc, after, joint, owned)
    }

    // Makes those of the last part of a word.
    #[inline(always)]
    pub(crate) fn at_end(alloc: Global, after: String) -> Result<PartChanges<'t>, AllocError>
        ensures after { IfOk result (λ changes. after_bytes changes ≡ string_bytes after) }
        ensures space { IfOk result (λ changes. joint_bytes changes false ≡ space ∷ []) }
        ensures before { IfOk result (λ changes. before_bytes changes ≡ []) }
    {
        if after.is_empty() {
            return Ok(PartChanges::none());
        }
        PartChanges::of(alloc, after, " ", String::new(alloc))
    }

    // Returns the second half of the change before a part.
    #[inline(always)]
    pub(crate) fn after(&self) -> &str
        ensures { result.now ≡ after_bytes self.now }
    {
        match &self.sides {
            Some(sides) => sides.after.as_str(),
            None => "",
        }
    }

    // Returns the text between a part and the next one of the same line. The part is broken off, or the last one of its
    // word.
    #[inline(always)]
    pub(crate) fn joint(&self, broken: bool) -> &str
        ensures { result.now ≡ joint_bytes self.now broken }
    {
        match &self.sides {
            Some(sides) => sides.joint,
            None => { if broken { "" } else { " " } }
        }
    }

    // Returns the first half of the change after a part.
    #[inline(always)]
    pub(crate) fn before(&self) -> &str
        ensures { result.now ≡ before_bytes self.now }
    {
        match &self.sides {
            Some(sides) => sides.before.as_str(),
            None => "",
        }
    }
}
