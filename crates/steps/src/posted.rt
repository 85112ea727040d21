// Message types that a steps file can post.
ghost use Rattle.std.specs.Prelude.{◌≡◌, ℕ, ◌⊎◌, List, ◌≢◌, slice_index};
ghost use Rattle.steps.specs.Lawful.{Lawful, LawfulOf};
ghost use Rattle.steps.specs.Layout.{Format, type_number};
ghost use Rattle.steps.specs.Reading.{IsPost, Reads};

use crate::fault::Unlawful;
use messages::message::Timed;

pub mod note;
pub mod pen;

// A message type that the header of a steps file can name.
pub trait Posted: Timed {
    // the type's number, and the bytes of a post
    ghost format: { Format Self };

    // The message that a record posts; otherwise how many of its first bytes some post has too.
    fn read_post(bytes: &[u8]) -> Result<Self, Unlawful>
        ensures { Reads (IsPost format) 10 bytes.now result };

    // a file of such posts is lawful, and a lawful file is one of such posts or names another type
    ghost lawful: { (g : List ℕ) → LawfulOf format g → Lawful g };

    ghost only: { (g : List ℕ) → Lawful g → LawfulOf format g ⊎ (slice_index g 5 ≢ type_number format.message_type) };
}
