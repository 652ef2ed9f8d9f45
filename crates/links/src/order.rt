ghost use Rattle.links.specs.Order.{FirstInFirstOut};

// Over any row of sends and drops, what went into a lane comes out of it in that order. It follows from what each
// call says of the lanes, so it holds of all links, whatever their memory held.
pub fn first_in_first_out<M: Copy>()
    ensures { FirstInFirstOut M }
{}
