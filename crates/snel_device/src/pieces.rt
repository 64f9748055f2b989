ghost use Rattle.std.specs.Prelude.{◌≡◌, ◌++◌, ◌-◌, ◌≤◌, min, length, take, drop, replicate};

// Copies bytes from a place on to the front of `into`, as many as there are, as fit, and as `most`
// allows, and answers how many.
pub fn copy_front(bytes: &[u8], at: usize, most: usize, into: &mut [u8]) -> usize
    requires { at ≤ length bytes.now }
    ensures count { result ≡ min (min most (length into.old)) (length bytes.now - at) }
    ensures front { take result into.new ≡ take result (drop at bytes.now) }
    ensures rest { drop result into.new ≡ drop result into.old }
{
    let count = most.min(into.len()).min(bytes.len() - at);
    into[..count].copy_from_slice(&bytes[at..at + count]);
    count
}

// Fills `into` with the bytes from a place on, and with zeros past their end.
pub fn fill_padded(bytes: &[u8], at: usize, into: &mut [u8])
    requires { at ≤ length bytes.now }
    ensures { into.new ≡ take (length into.old) (drop at bytes.now
        ++ replicate (length into.old) 0) }
{
    let room = into.len();
    into.fill(0);
    copy_front(bytes, at, room, into);
}
