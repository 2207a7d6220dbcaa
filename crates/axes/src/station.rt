/// A value of an axis of stations: the edge where station i begins, or its centre.
#[derive(Clone, Copy, PartialEq, Eq, Debug)]
pub enum Station {
    Edge(u32),
    Centre(u32),
}
