// The laws of users, over all lists of them.
ghost use Rattle.std.specs.Prelude.{◌≡◌, ◌≢◌, ◌+◌, ◌<◌, ◌≤◌, ◌↔◌, ◌++◌, ◌∷◌, if◌then◌else◌, ℕ, Bool, List, [], Some, IsSome, count_by, length};
ghost use Rattle.ld_pool.specs.Users.{busy_count, free_count, idle_count, user_at, with_user};
ghost use Rattle.ld_pool.specs.declared.user.User.{User};
ghost use Rattle.ld_pool.specs.declared.user.User.TheVariants.{Free};

/// The users that were made have the numbers from 1 to as many as they are, and no other number is
/// a user's.
pub fn numbered_from_one()
    ensures { (users : List User) (number : ℕ) → IsSome (user_at users number) ↔ ((1 ≤ number) × (number ≤ length users)) }
{}

/// A change of one user leaves each other user as it was.
pub fn one_changes()
    ensures changed { (users : List User) (number : ℕ) (before after : User) → user_at users number ≡ Some before → user_at (with_user users number after) number ≡ Some after }
    ensures others { (users : List User) (number other : ℕ) (before after : User) → user_at users number ≡ Some before → other ≢ number → user_at (with_user users number after) other ≡ user_at users other }
{}

/// A change that is taken back leaves all users as they were.
pub fn taken_back()
    ensures { (users : List User) (number : ℕ) (before after : User) → user_at users number ≡ Some before → with_user (with_user users number after) number before ≡ users }
{}

/// A user that is made leaves each earlier user as it was, and has the number behind theirs.
pub fn one_grows()
    ensures made { (users : List User) (user : User) → user_at (users ++ user ∷ []) (length users + 1) ≡ Some user }
    ensures others { (users : List User) (user : User) (other : ℕ) → other ≤ length users → user_at (users ++ user ∷ []) other ≡ user_at users other }
{}

/// Each user that was made is free, idle or busy, and just one of these.
pub fn users_are_counted()
    ensures { (users : List User) → free_count users + idle_count users + busy_count users ≡ length users }
{}

/// Whatever kind of users is counted, a changed user counts as what it is after the change, and no
/// longer as what it was before.
pub fn changes_are_counted()
    ensures { (users : List User) (number : ℕ) (before after : User) (kind : User → Bool) → user_at users number ≡ Some before →
        count_by kind (with_user users number after) + (if kind before then 1 else 0) ≡ count_by kind users + (if kind after then 1 else 0) }
{}

/// No user is counted as free exactly where none is.
pub fn none_is_free()
    ensures { (users : List User) → (free_count users ≡ 0) ↔ ((number : ℕ) → user_at users number ≢ Some Free) }
{}
