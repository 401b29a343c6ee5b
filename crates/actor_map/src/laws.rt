//! Laws of the map that hold with no code.
ghost use Rattle.actor_map.specs.Apart.{AreApart, AreInside, IsWhole};
ghost use Rattle.actor_map.specs.Enough.{AreEnough};
ghost use Rattle.actor_map.specs.Numbers.{AreToldBack};
ghost use Rattle.actor_map.specs.Started.{AreNamed, HaveStarts};

/// Each object ends where the next begins or before: no word is in two objects.
pub fn apart()
    ensures { AreApart }
{}

/// Each object begins at the first word of objects or later, and ends within the words of the map.
pub fn inside()
    ensures { AreInside }
{}

/// Each declared object has its place in the map, and each place is that of one object.
pub fn whole()
    ensures { IsWhole }
{}

/// The words of each object, from its first word on, begin as those of its line.
pub fn starts()
    ensures { HaveStarts }
{}

/// Which words of an object do not begin as 0: the owner words of its entries, its doorbell record and its arm
/// register.
pub fn named()
    ensures { AreNamed }
{}

/// A note tells the numbers that it was made of.
pub fn notes_tell_numbers()
    ensures { AreToldBack }
{}

/// A note that fits its entry tells enough of what other actors did: a post has room, a full queue was seen as it
/// is, and what the adapter takes was posted and what it writes has its place.
pub fn enough()
    ensures { AreEnough }
{}
