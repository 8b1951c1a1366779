use scm_model::Request;

/// What is asked by a request that can be read, of either interface. Contracts alone speak of it.
pub enum DecodedRequest {
    /// A call of svcctl.
    Call(Request),
    /// The one method of the trigger interface: what has this subtype is raised. It is a UUID as it
    /// lies in memory.
    Raise([u8; 16]),
}
