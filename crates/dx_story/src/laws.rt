//! Laws of stories.

ghost use Rattle.dx_story.specs.Story.{UnionIsStory};

/// The union of two stories of a root is one, so that there is a greatest story wherever there is
/// any.
pub fn union_is_story()
    ensures { UnionIsStory }
{}
