//! How many live objects use one.
ghost use Rattle.std.specs.Prelude.{◌≡◌, ◌-◌, ◌^◌, ◌<◌, slice_index, vec_len};
ghost use Rattle.device_commands.specs.Users.{IsOneMore};

/// Counts one user more of the object at this place.
pub(crate) fn count_one_more(users: &mut Vec<u32>, place: u32)
    requires inside { place < vec_len users.old }
    requires few { slice_index users.old.items place < 2 ^ 32 - 1 }
    ensures counted { IsOneMore users.old.items users.new.items place }
    ensures len { vec_len users.new ≡ vec_len users.old }
{
    users[place as usize] += 1;
}

/// Counts one user less of the object at this place.
pub(crate) fn count_one_less(users: &mut Vec<u32>, place: u32)
    requires inside { place < vec_len users.old }
    requires some { 0 < slice_index users.old.items place }
    ensures counted { IsOneMore users.new.items users.old.items place }
    ensures len { vec_len users.new ≡ vec_len users.old }
{
    users[place as usize] -= 1;
}
