//! Numbers of texts, in a list that is kept from one use to the next.

use lola_value::list::ListOf;
use lola_value::value::TextId;

/// Numbers of texts, in the order in which they were added; a number may stand there more than once. Clearing keeps the room.
pub type Ids = ListOf<TextId>;
