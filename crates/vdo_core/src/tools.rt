/// What a step of a zone works with, beside the zone itself. A step must be given the tools of its zone.
pub enum Tools<'a, D> {
    /// The device, for the device's zone: it makes its calls there.
    Device(&'a mut D),
    /// Nothing, for every other zone.
    Other,
}
