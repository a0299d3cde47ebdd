ghost use Rattle.std.specs.Prelude.{◌≡◌, ◌≤◌, take, length};
ghost use Rattle.vm_split.specs.Owners.{places_of, free_places, handed_out, taken_back};

/// How many descriptors are free.
pub fn count_free(owners: &[Option<u16>]) -> u16
    requires { length owners.now ≤ 64 }
    ensures { result ≡ length (free_places owners.now) }
{
    let mut count = 0;
    for owner in owners {
        if owner.is_none() {
            count += 1;
        }
    }
    count
}

/// Puts the lowest free descriptors into `places`, as many as it has.
pub fn find_free(owners: &[Option<u16>], places: &mut [u16])
    requires room { length places.old ≤ length (free_places owners.now) }
    requires few { length owners.now ≤ 64 }
    ensures { places.new ≡ take (length places.old) (free_places owners.now) }
{
    let mut at: usize = 0;
    let mut found: usize = 0;
    while found < places.len() {
        if owners[at].is_none() {
            places[found] = at as u16;
            found += 1;
        }
        at += 1;
    }
}

/// Makes the lowest `count` free descriptors those of the chain with this head.
pub fn hand_out(owners: &mut [Option<u16>], head: u16, count: usize)
    ensures { owners.new ≡ handed_out count head owners.old }
{
    let mut at: usize = 0;
    let mut left = count;
    while left > 0 && at < owners.len() {
        if owners[at].is_none() {
            owners[at] = Some(head);
            left -= 1;
        }
        at += 1;
    }
}

/// Makes the descriptors free that lie in the chain with this head.
pub fn take_back(owners: &mut [Option<u16>], head: u16)
    ensures { owners.new ≡ taken_back head owners.old }
{
    for at in 0..owners.len() {
        if owners[at] == Some(head) {
            owners[at] = None;
        }
    }
}
