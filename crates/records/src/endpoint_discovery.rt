// Status 0x00: a host asks what an endpoint is. The settings of its version stand in ump_version.rt.
ghost use Rattle.std.specs.Prelude.{◌≡◌};
ghost use Rattle.kinds.specs.Fields.{Flag, Setting};
ghost use Rattle.records.specs.Settings.{set_record, set_edited};

use crate::answers::Edited;
use crate::message::Message;

#[derive(Clone, Copy)]
pub struct EndpointDiscovery {
    pub ump_version_major: u8,
    pub ump_version_minor: u8,
    pub request_endpoint_info: bool,
    pub request_device_identity: bool,
    pub request_endpoint_name: bool,
    pub request_product_instance_id: bool,
    pub request_stream_configuration: bool,
}

// Settings on a record.
#[tactic(auto, unfolding(crate::proofs::Methods::setting), using(crate::proofs::Methods::other_discovery))]
impl Message {
    pub fn set_request_endpoint_info(mut self, on: bool) -> Edited
        ensures { result ≡ set_record (Setting.flag Flag.request_endpoint_info on) self }
    {
        let Message::EndpointDiscovery(discovery) = &mut self else {
            return Edited::no_such_field(self);
        };
        discovery.request_endpoint_info = on;
        Edited::done(self)
    }

    pub fn set_request_device_identity(mut self, on: bool) -> Edited
        ensures { result ≡ set_record (Setting.flag Flag.request_device_identity on) self }
    {
        let Message::EndpointDiscovery(discovery) = &mut self else {
            return Edited::no_such_field(self);
        };
        discovery.request_device_identity = on;
        Edited::done(self)
    }

    pub fn set_request_endpoint_name(mut self, on: bool) -> Edited
        ensures { result ≡ set_record (Setting.flag Flag.request_endpoint_name on) self }
    {
        let Message::EndpointDiscovery(discovery) = &mut self else {
            return Edited::no_such_field(self);
        };
        discovery.request_endpoint_name = on;
        Edited::done(self)
    }

    pub fn set_request_product_instance_id(mut self, on: bool) -> Edited
        ensures { result ≡ set_record (Setting.flag Flag.request_product_instance_id on) self }
    {
        let Message::EndpointDiscovery(discovery) = &mut self else {
            return Edited::no_such_field(self);
        };
        discovery.request_product_instance_id = on;
        Edited::done(self)
    }

    pub fn set_request_stream_configuration(mut self, on: bool) -> Edited
        ensures { result ≡ set_record (Setting.flag Flag.request_stream_configuration on) self }
    {
        let Message::EndpointDiscovery(discovery) = &mut self else {
            return Edited::no_such_field(self);
        };
        discovery.request_stream_configuration = on;
        Edited::done(self)
    }
}

// The same settings on the result of a setting, for chains.
impl Edited {
    pub fn set_request_endpoint_info(self, on: bool) -> Edited
        ensures { result ≡ set_edited (Setting.flag Flag.request_endpoint_info on) self }
    {
        self.then(self.message.set_request_endpoint_info(on))
    }

    pub fn set_request_device_identity(self, on: bool) -> Edited
        ensures { result ≡ set_edited (Setting.flag Flag.request_device_identity on) self }
    {
        self.then(self.message.set_request_device_identity(on))
    }

    pub fn set_request_endpoint_name(self, on: bool) -> Edited
        ensures { result ≡ set_edited (Setting.flag Flag.request_endpoint_name on) self }
    {
        self.then(self.message.set_request_endpoint_name(on))
    }

    pub fn set_request_product_instance_id(self, on: bool) -> Edited
        ensures { result ≡ set_edited (Setting.flag Flag.request_product_instance_id on) self }
    {
        self.then(self.message.set_request_product_instance_id(on))
    }

    pub fn set_request_stream_configuration(self, on: bool) -> Edited
        ensures { result ≡ set_edited (Setting.flag Flag.request_stream_configuration on) self }
    {
        self.then(self.message.set_request_stream_configuration(on))
    }
}
