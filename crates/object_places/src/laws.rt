//! Laws of the queues' words that hold with no code.
ghost use Rattle.object_places.specs.Apart.{AreApart, AreAtStart, ArePlaced};
ghost use Rattle.object_places.specs.Words.{AreOfObjects, AreOwn, AreUsed};

use actor_map::laws as map;

/// The queue of each declared object lies as its crate asks for, on words of objects, so not on the word of actors
/// that ended.
pub fn places()
    ensures { ArePlaced }
{
    map::whole();
    map::inside();
}

/// Two queues have no word in common, the two of one queue pair included.
pub fn apart()
    ensures { AreApart }
{
    map::whole();
    map::inside();
    map::apart();
}

/// Nor do they have one where the words count that the map has for a queue and nobody uses yet: of a completion queue
/// the second area, the record's second word, the arm register and the sequence number.
pub fn words()
    ensures used { AreUsed }
    ensures own { AreOwn }
    ensures of_objects { AreOfObjects }
{
    map::whole();
    map::inside();
    map::apart();
}

/// With the words that a run begins with each queue is as before its first operation.
pub fn starts()
    ensures { AreAtStart }
{
    map::starts();
    map::named();
}
