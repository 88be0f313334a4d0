// The seven kinds.

#[derive(Clone, Copy, PartialEq, Eq)]
pub enum Kind {
    EndpointDiscovery,
    EndpointInfo,
    DeviceIdentity,
    EndpointName,
    ProductInstanceId,
    FunctionBlockInfo,
    FunctionBlockName,
}
