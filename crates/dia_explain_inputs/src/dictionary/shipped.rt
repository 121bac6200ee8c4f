//! The AVPs that the files of `dictionaries/` declare. `dictionaries/shipped.py` writes this file.

/// Files, each as `@FILE` followed by its AVPs, `NAME:LINE`.
static SHIPPED: &str = "\
    @rfc6733.txt Vendor-Id:5 Firmware-Revision:6 Host-IP-Address:7 Supported-Vendor-Id:8 Product-Name:9 \
    Disconnect-Cause:10 Origin-Host:11 Origin-Realm:12 Destination-Host:13 Destination-Realm:14 Route-Record:15 \
    Proxy-Info:16 Proxy-Host:17 Proxy-State:18 Auth-Application-Id:19 Acct-Application-Id:20 Inband-Security-Id:21 \
    Vendor-Specific-Application-Id:22 Redirect-Host:23 Redirect-Host-Usage:24 Redirect-Max-Cache-Time:25 Result-Code:26 \
    Error-Message:27 Error-Reporting-Host:28 Failed-AVP:29 Experimental-Result:30 Experimental-Result-Code:31 \
    Auth-Request-Type:32 Session-Id:33 Authorization-Lifetime:34 Auth-Grace-Period:35 Auth-Session-State:36 \
    Re-Auth-Request-Type:37 Session-Timeout:38 User-Name:39 Termination-Cause:40 Origin-State-Id:41 Session-Binding:42 \
    Session-Server-Failover:43 Multi-Round-Time-Out:44 Class:45 Event-Timestamp:46 Accounting-Record-Type:47 \
    Acct-Interim-Interval:48 Accounting-Record-Number:49 Acct-Session-Id:50 Acct-Multi-Session-Id:51 \
    Accounting-Sub-Session-Id:52 Accounting-Realtime-Required:53 @rfc8506-avps.txt CC-Correlation-Id:4 CC-Request-Number:5 \
    CC-Request-Type:6 CC-Session-Failover:7 CC-Sub-Session-Id:8 Check-Balance-Result:9 Cost-Information:10 Unit-Value:11 \
    Exponent:12 Value-Digits:13 Currency-Code:14 Cost-Unit:15 Credit-Control:16 Credit-Control-Failure-Handling:17 \
    Direct-Debiting-Failure-Handling:18 Multiple-Services-Credit-Control:19 Granted-Service-Unit:20 \
    Requested-Service-Unit:21 Used-Service-Unit:22 Tariff-Time-Change:23 CC-Time:24 CC-Money:25 CC-Total-Octets:26 \
    CC-Input-Octets:27 CC-Output-Octets:28 CC-Service-Specific-Units:29 Tariff-Change-Usage:30 Service-Identifier:31 \
    Rating-Group:32 G-S-U-Pool-Reference:33 G-S-U-Pool-Identifier:34 CC-Unit-Type:35 Validity-Time:36 \
    Final-Unit-Indication:37 Final-Unit-Action:38 Restriction-Filter-Rule:39 Redirect-Server:40 Redirect-Address-Type:41 \
    Redirect-Server-Address:42 Multiple-Services-Indicator:43 Requested-Action:44 Service-Context-Id:45 \
    Service-Parameter-Info:46 Service-Parameter-Type:47 Service-Parameter-Value:48 Subscription-Id:49 \
    Subscription-Id-Type:50 Subscription-Id-Data:51 User-Equipment-Info:52 User-Equipment-Info-Type:53 \
    User-Equipment-Info-Value:54 User-Equipment-Info-Extension:55 User-Equipment-Info-IMEISV:56 User-Equipment-Info-MAC:57 \
    User-Equipment-Info-EUI64:58 User-Equipment-Info-ModifiedEUI64:59 User-Equipment-Info-IMEI:60 \
    Subscription-Id-Extension:61 Subscription-Id-E164:62 Subscription-Id-IMSI:63 Subscription-Id-SIP-URI:64 \
    Subscription-Id-NAI:65 Subscription-Id-Private:66 Redirect-Server-Extension:67 Redirect-Address-IPAddress:68 \
    Redirect-Address-URL:69 Redirect-Address-SIP-URI:70 QoS-Final-Unit-Indication:71 @rfc7155-avps.txt NAS-Port:7 \
    NAS-Port-Id:8 NAS-Port-Type:9 Called-Station-Id:10 Calling-Station-Id:11 Connect-Info:12 Originating-Line-Info:13 \
    Reply-Message:14 User-Password:15 Password-Retry:16 Prompt:17 CHAP-Auth:18 CHAP-Algorithm:19 CHAP-Ident:20 \
    CHAP-Response:21 CHAP-Challenge:22 ARAP-Password:23 ARAP-Challenge-Response:24 ARAP-Security:25 ARAP-Security-Data:26 \
    Service-Type:27 Callback-Number:28 Callback-Id:29 Idle-Timeout:30 Port-Limit:31 NAS-Filter-Rule:32 Filter-Id:33 \
    Configuration-Token:34 QoS-Filter-Rule:35 Framed-Protocol:36 Framed-Routing:37 Framed-MTU:38 Framed-Compression:39 \
    Framed-IP-Address:40 Framed-IP-Netmask:41 Framed-Route:42 Framed-Pool:43 Framed-Interface-Id:44 Framed-IPv6-Prefix:45 \
    Framed-IPv6-Route:46 Framed-IPv6-Pool:47 Framed-IPX-Network:48 Framed-Appletalk-Link:49 Framed-Appletalk-Network:50 \
    Framed-Appletalk-Zone:51 ARAP-Features:52 ARAP-Zone-Access:53 Login-IP-Host:54 Login-IPv6-Host:55 Login-Service:56 \
    Login-TCP-Port:57 Login-LAT-Service:58 Login-LAT-Node:59 Login-LAT-Group:60 Login-LAT-Port:61 Tunneling:62 \
    Tunnel-Type:63 Tunnel-Medium-Type:64 Tunnel-Client-Endpoint:65 Tunnel-Server-Endpoint:66 Tunnel-Password:67 \
    Tunnel-Private-Group-Id:68 Tunnel-Assignment-Id:69 Tunnel-Preference:70 Tunnel-Client-Auth-Id:71 \
    Tunnel-Server-Auth-Id:72 Accounting-Input-Octets:73 Accounting-Output-Octets:74 Accounting-Input-Packets:75 \
    Accounting-Output-Packets:76 Acct-Session-Time:77 Acct-Authentic:78 Accounting-Auth-Method:79 Acct-Delay-Time:80 \
    Acct-Link-Count:81 Acct-Tunnel-Connection:82 Acct-Tunnel-Packets-Lost:83 NAS-Identifier:84 NAS-IP-Address:85 \
    NAS-IPv6-Address:86 State:87 Origin-AAA-Protocol:88 @rfc3588.txt E2E-Sequence:32 @rfc4072.txt EAP-Payload:5 \
    EAP-Reissued-Payload:6 EAP-Master-Session-Key:7 EAP-Key-Name:8 Accounting-EAP-Auth-Method:9 @rfc4740.txt \
    SIP-Accounting-Information:6 SIP-Accounting-Server-URI:7 SIP-Credit-Control-Server-URI:8 SIP-Server-URI:9 \
    SIP-Server-Capabilities:10 SIP-Mandatory-Capability:11 SIP-Optional-Capability:12 SIP-Server-Assignment-Type:13 \
    SIP-Auth-Data-Item:14 SIP-Authentication-Scheme:15 SIP-Item-Number:16 SIP-Authenticate:17 SIP-Authorization:18 \
    SIP-Authentication-Info:19 SIP-Number-Auth-Items:20 SIP-Deregistration-Reason:21 SIP-Reason-Code:22 SIP-Reason-Info:23 \
    SIP-Visited-Network-Id:24 SIP-User-Authorization-Type:25 SIP-Supported-User-Data-Type:26 SIP-User-Data:27 \
    SIP-User-Data-Type:28 SIP-User-Data-Contents:29 SIP-User-Data-Already-Available:30 SIP-Method:31 Digest-Response:32 \
    Digest-Realm:33 Digest-Nonce:34 Digest-Response-Auth:35 Digest-Nextnonce:36 Digest-Method:37 Digest-URI:38 \
    Digest-QoP:39 Digest-Algorithm:40 Digest-Entity-Body-Hash:41 Digest-CNonce:42 Digest-Nonce-Count:43 Digest-Username:44 \
    Digest-Opaque:45 Digest-Auth-Param:46 Digest-Domain:47 Digest-Stale:48 Digest-HA1:49 SIP-AOR:50 @rfc5777.txt \
    QoS-Resources:9 Filter-Rule:10 Filter-Rule-Precedence:11 Classifier:12 Classifier-ID:13 Protocol:14 Direction:15 \
    From-Spec:16 To-Spec:17 Negated:18 IP-Address:19 IP-Address-Range:20 IP-Address-Start:21 IP-Address-End:22 \
    IP-Address-Mask:23 IP-Mask-Bit-Mask-Width:24 MAC-Address:25 MAC-Address-Mask:26 MAC-Address-Mask-Pattern:27 \
    EUI64-Address:28 EUI64-Address-Mask:29 EUI64-Address-Mask-Pattern:30 Port:31 Port-Range:32 Port-Start:33 Port-End:34 \
    Use-Assigned-Address:35 Diffserv-Code-Point:36 Fragmentation-Flag:37 IP-Option:38 IP-Option-Type:39 IP-Option-Value:40 \
    TCP-Option:41 TCP-Option-Type:42 TCP-Option-Value:43 TCP-Flags:44 TCP-Flag-Type:45 ICMP-Type:46 ICMP-Type-Number:47 \
    ICMP-Code:48 ETH-Option:49 ETH-Proto-Type:50 ETH-Ether-Type:51 ETH-SAP:52 VLAN-ID-Range:53 S-VID-Start:54 S-VID-End:55 \
    C-VID-Start:56 C-VID-End:57 User-Priority-Range:58 Low-User-Priority:59 High-User-Priority:60 Time-Of-Day-Condition:61 \
    Time-Of-Day-Start:62 Time-Of-Day-End:63 Day-Of-Week-Mask:64 Day-Of-Month-Mask:65 Month-Of-Year-Mask:66 \
    Absolute-Start-Time:67 Absolute-Start-Fractional-Seconds:68 Absolute-End-Time:69 Absolute-End-Fractional-Seconds:70 \
    Timezone-Flag:71 Timezone-Offset:72 Treatment-Action:73 QoS-Profile-Id:74 QoS-Profile-Template:75 QoS-Semantics:76 \
    QoS-Parameters:77 Excess-Treatment:78 QoS-Capability:79 @rfc7683.txt OC-Supported-Features:4 OC-Feature-Vector:5 \
    OC-OLR:6 OC-Sequence-Number:7 OC-Validity-Duration:8 OC-Report-Type:9 OC-Reduction-Percentage:10 @rfc7944.txt DRMP:4 \
    @rfc8583.txt Load:4 Load-Type:5 Load-Value:6 SourceID:7 @ts29061-avps.txt 3GPP-IMSI:5 3GPP-Charging-Id:6 \
    3GPP-PDP-Type:7 3GPP-CG-Address:8 3GPP-GPRS-Negotiated-QoS-Profile:9 3GPP-SGSN-Address:10 3GPP-GGSN-Address:11 \
    3GPP-IMSI-MCC-MNC:12 3GPP-GGSN-MCC-MNC:13 3GPP-NSAPI:14 3GPP-Session-Stop-Indicator:15 3GPP-Selection-Mode:16 \
    3GPP-Charging-Characteristics:17 3GPP-CG-IPv6-Address:18 3GPP-SGSN-IPv6-Address:19 3GPP-GGSN-IPv6-Address:20 \
    3GPP-IPv6-DNS-Servers:21 3GPP-SGSN-MCC-MNC:22 3GPP-IMEISV:23 3GPP-RAT-Type:24 3GPP-User-Location-Info:25 \
    3GPP-MS-TimeZone:26 3GPP-CAMEL-Charging-Info:27 3GPP-Packet-Filter:28 3GPP-Negotiated-DSCP:29 3GPP-Allocate-IP-Type:30 \
    RAI:31 @ts29128.txt Connection-Action:16 Extended-PCO:18 CMR-Flags:19 Non-IP-Data:20 SCEF-Wait-Time:21 \
    Maximum-Retransmission-Time:22 Requested-Retransmission-Time:23 TDA-Flags:24 @ts29172.txt SLg-Location-Type:15 \
    LCS-EPS-Client-Name:16 LCS-Requestor-Name:18 LCS-Priority:19 LCS-QoS:20 Velocity-Requested:21 Supported-GAD-Shapes:22 \
    LCS-Service-Type-ID:23 LCS-Codeword:24 LCS-Privacy-Check-Non-Session:25 LCS-Privacy-Check-Session:26 \
    Deferred-Location-Type:27 LCS-Reference-Number:28 Area-Event-Info:29 PLR-Flags:30 Periodic-LDR-Information:31 \
    Reporting-PLMN-List:32 Motion-Event-Info:33 Accuracy-Fulfilment-Indicator:35 Age-Of-Location-Estimate:36 \
    Velocity-Estimate:37 EUTRAN-Positioning-Data:38 ECGI:39 GERAN-Positioning-Info:40 UTRAN-Positioning-Info:41 \
    PLA-Flags:42 ESMLC-Cell-Info:43 Civic-Address:44 Barometric-Pressure:45 Location-Event:46 Pseudonym-Indicator:47 \
    LCS-QoS-Class:48 LRR-Flags:49 Deferred-MT-LR-Data:50 Reporting-Amount:51 1xRTT-RCID:52 \
    Delayed-Location-Reporting-Data:53 LRA-Flags:54 Vertical-Accuracy:58 Vertical-Requested:59 Response-Time:60 \
    Horizontal-Accuracy:61 LCS-Privacy-Check:62 Occurrence-Info:63 Interval-Time:64 Maximum-Interval:65 \
    Sampling-Interval:66 Reporting-Duration:67 Reporting-Location-Requirements:68 Area-Definition:69 Reporting-Interval:70 \
    PLMN-ID-List:71 Prioritized-List-Indicator:72 Linear-Distance:73 GERAN-Positioning-Data:74 \
    GERAN-GANSS-Positioning-Data:75 UTRAN-Positioning-Data:76 UTRAN-GANSS-Positioning-Data:77 \
    UTRAN-Additional-Positioning-Data:78 Cell-Portion-ID:79 Termination-Cause-3GPP:80 Area:81 Additional-Area:82 \
    Periodic-Location-Support-Indicator:83 Area-Type:84 Area-Identification:85 @ts29173.txt LMSI:15 Serving-Node:16 \
    Additional-Serving-Node:17 PPR-Address:18 RIA-Flags:19 SGSN-Name:20 SGSN-Realm:21 MSC-Number:24 \
    3GPP-AAA-Server-Name:25 LCS-Capabilities-Sets:26 IP-SM-GW-Number:27 IP-SM-GW-Name:28 @ts29212.txt \
    ADC-Revalidation-Time:16 ADC-Rule-Install:17 ADC-Rule-Remove:18 ADC-Rule-Definition:19 ADC-Rule-Base-Name:20 \
    ADC-Rule-Name:21 ADC-Rule-Report:22 Application-Detection-Information:23 Access-Network-Charging-Identifier-Gx:24 \
    Allocation-Retention-Priority:25 AN-GW-Address:26 APN-Aggregate-Max-Bitrate-DL:27 APN-Aggregate-Max-Bitrate-UL:28 \
    Bearer-Control-Mode:29 Bearer-Identifier:30 Bearer-Operation:31 Bearer-Usage:32 Charging-Rule-Install:33 \
    Charging-Rule-Remove:34 Charging-Rule-Definition:35 Charging-Rule-Base-Name:36 Charging-Rule-Name:37 \
    Charging-Rule-Report:38 Charging-Correlation-Indicator:39 CoA-IP-Address:40 CoA-Information:41 \
    CSG-Information-Reporting:42 Default-EPS-Bearer-QoS:43 Event-Report-Indication:44 Event-Trigger:45 Flow-Direction:46 \
    Flow-Information:47 Flow-Label:48 IP-CAN-Type:49 Guaranteed-Bitrate-DL:50 Guaranteed-Bitrate-UL:51 \
    HeNB-Local-IP-Address:52 Metering-Method:53 Monitoring-Key:54 Mute-Notification:55 Monitoring-Time:56 \
    Network-Request-Support:57 Offline:58 Online:59 Packet-Filter-Content:60 Packet-Filter-Identifier:61 \
    Packet-Filter-Information:62 Packet-Filter-Operation:63 Packet-Filter-Usage:64 PDN-Connection-ID:65 Precedence:66 \
    Pre-emption-Capability:67 Pre-emption-Vulnerability:68 Priority-Level:69 Redirect-Information:70 Redirect-Support:71 \
    Reporting-Level:72 Routing-Filter:73 Routing-IP-Address:74 Routing-Rule-Definition:75 Routing-Rule-Identifier:76 \
    Routing-Rule-Install:77 Routing-Rule-Remove:78 PCC-Rule-Status:79 Session-Release-Cause:80 TDF-Information:81 \
    TDF-Application-Identifier:82 TDF-Application-Instance-Identifier:83 TDF-Destination-Host:84 TDF-Destination-Realm:85 \
    TDF-IP-Address:86 QoS-Class-Identifier:87 QoS-Information:88 QoS-Negotiation:89 QoS-Upgrade:90 \
    PS-to-CS-Session-Continuity:91 Resource-Allocation-Notification:92 Rule-Failure-Code:93 Security-Parameter-Index:94 \
    TFT-Filter:95 TFT-Packet-Filter-Information:96 ToS-Traffic-Class:97 Tunnel-Header-Filter:98 Tunnel-Header-Length:99 \
    Tunnel-Information:100 RAT-Type:101 Revalidation-Time:102 Rule-Activation-Time:103 UDP-Source-Port:104 \
    UE-Local-IP-Address:105 Usage-Monitoring-Information:106 Rule-Deactivation-Time:107 Usage-Monitoring-Level:108 \
    Usage-Monitoring-Report:109 Usage-Monitoring-Support:110 Monitoring-Flags:111 \
    Traffic-Steering-Policy-Identifier-DL:112 Traffic-Steering-Policy-Identifier-UL:113 Sharing-Key-DL:114 \
    Sharing-Key-UL:115 @ts29214.txt Abort-Cause:14 Access-Network-Charging-Address:15 \
    Access-Network-Charging-Identifier:16 Access-Network-Charging-Identifier-Value:17 Acceptable-Service-Info:18 \
    AF-Application-Identifier:19 AF-Charging-Identifier:20 Application-Service-Provider-Identity:21 Codec-Data:22 \
    Flow-Description:23 Flow-Number:24 Flows:25 Flow-Status:26 Flow-Usage:27 Service-URN:28 Specific-Action:29 \
    Max-Requested-Bandwidth-DL:30 Max-Requested-Bandwidth-UL:31 Media-Component-Description:32 Media-Component-Number:33 \
    Media-Sub-Component:34 Media-Type:35 MPS-Identifier:36 Min-Requested-Bandwidth-DL:37 Min-Requested-Bandwidth-UL:38 \
    RR-Bandwidth:39 RS-Bandwidth:40 Service-Info-Status:41 SIP-Forking-Indication:42 Sponsor-Identity:43 \
    Sponsored-Connectivity-Data:44 AF-Signalling-Protocol:45 Required-Access-Info:46 Rx-Request-Type:47 IP-Domain-Id:48 \
    Reservation-Priority:49 @ts29215.txt Subsession-Enforcement-Info:15 Subsession-Decision-Info:16 Subsession-Id:17 \
    Subsession-Operation:18 QoS-Rule-Report:19 Multiple-BBERF-Action:20 Session-Linking-Indicator:21 QoS-Rule-Install:22 \
    QoS-Rule-Remove:23 QoS-Rule-Name:24 QoS-Rule-Base-Name:25 QoS-Rule-Definition:26 @ts29219.txt SL-Request-Type:16 \
    Policy-Counter-Identifier:17 Policy-Counter-Status-Report:18 SN-Request-Type:19 Policy-Counter-Status:20 \
    Pending-Policy-Counter-Information:21 Pending-Policy-Counter-Change-Time:22 @ts29229.txt Associated-Identities:18 \
    Associated-Registered-Identities:19 Call-ID-SIP-Header:20 Charging-Information:21 Confidentiality-Key:22 Contact:23 \
    Deregistration-Reason:24 Feature-List:29 Feature-List-ID:30 From-SIP-Header:31 Identity-with-Emergency-Registration:32 \
    Integrity-Key:33 LIA-Flags:34 Loose-Route-Indication:35 Mandatory-Capability:36 Multiple-Registration-Indication:37 \
    Optional-Capability:38 Originating-Request:39 Path:40 Primary-Charging-Collection-Function-Name:41 \
    Primary-Event-Charging-Function-Name:42 Priviledged-Sender-Indication:43 Public-Identity:44 Reason-Code:45 \
    Reason-Info:46 Record-Route:47 Restoration-Info:48 SCSCF-Restoration-Info:49 SIP-Authentication-Context:52 \
    SIP-Digest-Authenticate:55 Secondary-Charging-Collection-Function-Name:58 Secondary-Event-Charging-Function-Name:59 \
    Server-Assignment-Type:60 Server-Capabilities:61 Server-Name:62 Session-Priority:63 Subscription-Info:64 \
    Supported-Applications:65 Supported-Features:66 To-SIP-Header:67 UAR-Flags:68 User-Authorization-Type:69 User-Data:70 \
    User-Data-Already-Available:71 Visited-Network-Identifier:72 Wildcarded-Public-Identity:73 Line-Identifier:74 \
    @ts29272.txt Subscription-Data:20 Terminal-Information:21 IMEI:22 Software-Version:23 QoS-Subscribed:24 ULR-Flags:25 \
    ULA-Flags:26 Visited-PLMN-Id:27 Requested-EUTRAN-Authentication-Info:28 Requested-UTRAN-GERAN-Authentication-Info:29 \
    Number-Of-Requested-Vectors:30 Re-Synchronization-Info:31 Immediate-Response-Preferred:32 Authentication-Info:33 \
    E-UTRAN-Vector:34 UTRAN-Vector:35 GERAN-Vector:36 Network-Access-Mode:37 HPLMN-ODB:38 Item-Number:39 \
    Cancellation-Type:40 DSR-Flags:41 DSA-Flags:42 Context-Identifier:43 Subscriber-Status:44 \
    Operator-Determined-Barring:45 Access-Restriction-Data:46 APN-OI-Replacement:47 \
    All-APN-Configurations-Included-Indicator:48 APN-Configuration-Profile:49 APN-Configuration:50 \
    EPS-Subscribed-QoS-Profile:51 VPLMN-Dynamic-Address-Allowed:52 STN-SR:53 Alert-Reason:54 AMBR:55 \
    CSG-Subscription-Data:56 CSG-Id:57 PDN-GW-Allocation-Type:58 Expiration-Date:59 RAT-Frequency-Selection-Priority-ID:60 \
    IDA-Flags:61 PUA-Flags:62 NOR-Flags:63 User-Id:64 Equipment-Status:65 Regional-Subscription-Zone-Code:66 RAND:67 \
    XRES:68 AUTN:69 KASME:70 Trace-Collection-Entity:71 Kc:72 SRES:73 PDN-Type:74 \
    Roaming-Restricted-Due-To-Unsupported-Feature:75 Trace-Data:76 Trace-Reference:77 Trace-Depth:78 Trace-NE-Type-List:79 \
    Trace-Interface-List:80 Trace-Event-List:81 OMC-Id:82 GPRS-Subscription-Data:83 \
    Complete-Data-List-Included-Indicator:84 PDP-Context:85 PDP-Type:86 3GPP2-MEID:87 Specific-APN-Info:88 LCS-Info:89 \
    GMLC-Number:90 LCS-PrivacyException:91 SS-Code:92 SS-Status:93 Notification-To-UE-User:94 External-Client:95 \
    Client-Identity:96 GMLC-Restriction:97 PLMN-Client:98 ServiceTypeIdentity:100 MO-LR:101 Teleservice-List:102 \
    TS-Code:103 Call-Barring-Infor-List:104 SGSN-Number:105 IDR-Flags:106 ICS-Indicator:107 \
    IMS-Voice-Over-PS-Sessions-Supported:108 Homogeneous-Support-of-IMS-Voice-Over-PS-Sessions:109 \
    Last-UE-Activity-Time:110 EPS-User-State:111 EPS-Location-Information:112 MME-User-State:113 SGSN-User-State:114 \
    User-State:115 MME-Location-Information:116 SGSN-Location-Information:117 E-UTRAN-Cell-Global-Identity:118 \
    Tracking-Area-Identity:119 Cell-Global-Identity:120 Routing-Area-Identity:121 Location-Area-Identity:122 \
    Service-Area-Identity:123 Geographical-Information:124 Geodetic-Information:125 Current-Location-Retrieved:126 \
    Age-Of-Location-Information:127 Active-APN:128 Error-Diagnostic:129 Ext-PDP-Address:130 UE-SRVCC-Capability:131 \
    MPS-Priority:132 VPLMN-LIPA-Allowed:133 LIPA-Permission:134 Subscribed-Periodic-RAU-TAU-Timer:135 Ext-PDP-Type:136 \
    SIPTO-Permission:137 MDT-Configuration:138 Job-Type:139 Area-Scope:140 List-Of-Measurements:141 Reporting-Trigger:142 \
    Report-Interval:143 Report-Amount:144 Event-Threshold-RSRP:145 Event-Threshold-RSRQ:146 Logging-Interval:147 \
    Logging-Duration:148 Relay-Node-Indicator:149 MDT-User-Consent:150 PUR-Flags:151 Subscribed-VSRVCC:152 \
    Equivalent-PLMN-List:153 CLR-Flags:154 UVR-Flags:155 UVA-Flags:156 VPLMN-CSG-Subscription-Data:157 Time-Zone:158 \
    A-MSISDN:159 MME-Number-for-MT-SMS:160 SMS-Register-Request:161 Local-Time-Zone:162 Daylight-Saving-Time:163 \
    Subscription-Data-Flags:164 Measurement-Period-UMTS:165 Measurement-Period-LTE:166 Collection-Period-RRM-LTE:167 \
    Collection-Period-RRM-UMTS:168 Positioning-Method:169 Measurement-Quantity:170 Event-Threshold-Event-1F:171 \
    Event-Threshold-Event-1I:172 Served-Party-IP-Address:173 PDP-Address:174 GMLC-Address:175 MIP6-Agent-Info:184 \
    MIP-Home-Agent-Address:185 MIP-Home-Agent-Host:186 MIP6-Home-Link-Prefix:187 Service-Selection:188 \
    ProSe-Subscription-Data:189 Adjacent-Access-Restriction-Data:190 DL-Buffering-Suggested-Packet-Count:191 \
    IMSI-Group-Id:192 UE-Usage-Type:193 AESE-Communication-Pattern:194 Monitoring-Event-Configuration:195 \
    Emergency-Info:196 V2X-Subscription-Data:197 eDRX-Cycle-Length:198 External-Identifier:199 Active-Time:200 \
    Service-Gap-Time:201 Broadcast-Location-Assistance-Data-Types:202 Aerial-UE-Subscription-Information:203 \
    Additional-Context-Identifier:204 Restoration-Priority:205 SIPTO-Local-Network-Permission:206 WLAN-offloadability:207 \
    Non-IP-PDN-Type-Indicator:208 Non-IP-Data-Delivery-Mechanism:209 SCEF-ID:210 SCEF-Realm:211 Preferred-Data-Mode:212 \
    PDN-Connection-Continuity:213 RDS-Indicator:214 eNodeB-ID:216 Extended-eNodeB-ID:217 MDT-Allowed-PLMN-Id:218 \
    MBSFN-Area:219 ProSe-Permission:220 ProSe-Allowed-PLMN:221 Group-Service-Id:222 Group-PLMN-Id:223 Local-Group-Id:224 \
    SCEF-Reference-ID:225 SCEF-Reference-ID-for-Deletion:226 Communication-Pattern-Set:227 Monitoring-Type:228 \
    Maximum-Number-of-Reports:229 Monitoring-Duration:230 UE-Reachability-Configuration:232 \
    Location-Information-Configuration:233 Association-Type:234 PLMN-ID-Requested:235 V2X-Permission:236 UE-PC5-AMBR:237 \
    eDRX-Cycle-Length-Value:238 WLAN-offloadability-EUTRAN:239 WLAN-offloadability-UTRAN:240 MBSFN-Area-ID:243 \
    Carrier-Frequency:244 Authorized-Discovery-Range:245 ProSe-Direct-Allowed:246 Periodic-Communication-Indicator:247 \
    Communication-Duration-Time:248 Periodic-Time:249 Scheduled-Communication-Time:250 Stationary-Indication:251 \
    Reference-ID-Validity-Time:252 Reachability-Type:253 Maximum-Latency:254 Maximum-Response-Time:255 \
    MONTE-Location-Type:256 Accuracy:257 @ts29273.txt ANID:19 WLAN-Identifier:21 DER-Flags:22 TWAN-Connection-Mode:23 \
    TWAN-Connectivity-Parameters:24 TWAG-CP-Address:25 AN-Trusted:27 MIP-FA-RK:28 MIP-FA-RK-SPI:29 DEA-Flags:30 \
    WLCP-Key:31 Full-Network-Name:32 Short-Network-Name:33 RAR-Flags:34 AAR-Flags:36 Origination-Time-Stamp:37 \
    Maximum-Wait-Time:38 DER-S6b-Flags:39 HESSID:41 Connectivity-Flags:42 TWAN-PCO:43 TWAG-UP-Address:44 \
    TWAN-S2a-Failure-Cause:45 SM-Back-Off-Timer:46 @ts29273-swx.txt AAA-Failure-Indication:17 Non-3GPP-User-Data:19 \
    PPR-Flags:20 Access-Network-Info:21 Emergency-Services:22 Non-3GPP-IP-Access:24 Non-3GPP-IP-Access-APN:25 \
    MIP6-Feature-Vector:26 Trace-Info:27 Location-Data:31 @ts29329.txt User-Identity:10 MSISDN:11 Sh-User-Data:12 \
    Data-Reference:13 Service-Indication:14 Subs-Req-Type:15 Requested-Domain:16 Current-Location:17 Identity-Set:18 \
    Expiry-Time:19 Send-Data-Indication:20 DSAI-Tag:21 Wildcarded-IMPU:22 One-Time-Notification:23 Requested-Nodes:24 \
    Serving-Node-Indication:25 Repository-Data-ID:26 Sequence-Number:27 UDR-Flags:28 @ts29336.txt User-Identifier:16 \
    S6-Service-ID:17 SCS-Identity:18 Service-Parameters:19 SIR-Flags:20 Service-Data:21 CIR-Flags:22 Supported-Services:23 \
    Enhanced-Coverage-Restriction:24 Group-Reporting-Guard-Timer:25 Suggested-Network-Configuration:26 \
    Monitoring-Event-Report:27 Monitoring-Event-Config-Status:28 AESE-Communication-Pattern-Config-Status:29 \
    S6t-HSS-Cause:30 Enhanced-Coverage-Restriction-Data:31 CIA-Flags:32 Group-Monitoring-Event-Report:33 RIR-Flags:34 \
    Monitoring-Event-Report-Status:35 NIDD-Authorization-Request:36 NIDD-Authorization-Update:37 NIR-Flags:38 \
    NIDD-Authorization-Response:39 NIA-Flags:40 Type-Of-External-Identifier:41 T4-Parameters:42 \
    Application-Port-Identifier:43 T4-Data:44 Supported-Monitoring-Events:45 Node-Type:46 Restricted-PLMN-List:47 \
    Allowed-PLMN-List:48 Roaming-Information:49 IMEI-Change:50 Reachability-Information:51 Maximum-UE-Availability-Time:52 \
    Event-Handling:53 Service-Report:54 Loss-Of-Connectivity-Reason:55 Idle-Status-Indication:56 \
    PDN-Connectivity-Status-Report:57 Number-Of-UE-Per-Location-Report:58 AESE-Error-Report:59 \
    Group-Monitoring-Event-Report-Item:60 Requested-Validity-Time:61 Granted-Validity-Time:62 Priority-Indication:63 \
    SM-RP-SMEA:64 HSS-Cause:65 Service-Result:66 Idle-Status-Timestamp:67 PDN-Connectivity-Status-Type:68 UE-Count:69 \
    Service-Result-Code:70 @ts29338.txt SMSMI-Correlation-ID:17 SC-Address:18 SM-RP-MTI:19 SRR-Flags:21 \
    SM-Delivery-Not-Intended:22 SMSF-3GPP-Address:23 SMSF-Non-3GPP-Address:24 MWD-Status:26 \
    MME-Absent-User-Diagnostic-SM:27 MSC-Absent-User-Diagnostic-SM:28 SGSN-Absent-User-Diagnostic-SM:29 \
    SMSF-3GPP-Absent-User-Diagnostic-SM:30 SMSF-Non-3GPP-Absent-User-Diagnostic-SM:31 SMS-GMSC-Alert-Event:33 \
    SM-Delivery-Outcome:34 RDR-Flags:35 OFR-Flags:36 SM-RP-UI:37 SM-Delivery-Failure-Cause:38 TFR-Flags:39 \
    SM-Delivery-Timer:40 SM-Delivery-Start-Time:41 SMS-GMSC-Address:43 Absent-User-Diagnostic-SM:44 HSS-ID:46 \
    Originating-SIP-URI:47 Destination-SIP-URI:48 SMSF-3GPP-Number:49 SMSF-3GPP-Name:50 SMSF-3GPP-Realm:51 \
    SMSF-Non-3GPP-Number:52 SMSF-Non-3GPP-Name:53 SMSF-Non-3GPP-Realm:54 MME-SM-Delivery-Outcome:56 \
    MSC-SM-Delivery-Outcome:57 SGSN-SM-Delivery-Outcome:58 IP-SM-GW-SM-Delivery-Outcome:59 \
    SMSF-3GPP-SM-Delivery-Outcome:60 SMSF-Non-3GPP-SM-Delivery-Outcome:61 SM-Enumerated-Delivery-Failure-Cause:62 \
    SM-Diagnostic-Info:63 SM-Delivery-Cause:64 @ts32299.txt AF-Correlation-Information:17 Access-Network-Information:18 \
    Access-Transfer-Information:19 Access-Transfer-Type:20 Account-Expiration:21 Accumulated-Cost:22 Adaptations:23 \
    Additional-Content-Information:24 Additional-Type-Information:25 Address-Data:26 Address-Domain:27 Address-Type:28 \
    Addressee-Type:29 Alternate-Charged-Party-Address:30 AoC-Cost-Information:31 AoC-Format:32 AoC-Information:33 \
    AoC-Request-Type:34 AoC-Service:35 AoC-Service-Obligatory-Type:36 AoC-Service-Type:37 AoC-Subscription-Information:38 \
    Applic-ID:39 Application-Server:40 Application-Server-Information:41 Application-Provided-Called-Party-Address:42 \
    Associated-Party-Address:43 Associated-URI:44 Aux-Applic-Info:45 Base-Time-Interval:46 Bearer-Service:47 CG-Address:48 \
    CSG-Access-Mode:49 CSG-Membership-Indication:50 CUG-Information:51 Called-Asserted-Identity:52 Called-Party-Address:53 \
    Calling-Party-Address:54 Carrier-Select-Routing-Information:55 Cause-Code:56 Change-Condition:57 Change-Time:58 \
    Charge-Reason-Code:59 Charged-Party:60 Charging-Characteristics-Selection-Mode:61 Class-Identifier:62 \
    Client-Address:63 Content-Class:64 Content-Disposition:65 Content-Length:66 Content-Size:67 Content-Type:68 \
    Current-Tariff:69 DRM-Content:70 Data-Coding-Scheme:71 Deferred-Location-Event-Type:72 Delivery-Report-Requested:73 \
    Destination-Interface:74 Diagnostics:75 Domain-Name:76 Dynamic-Address-Flag:77 Dynamic-Address-Flag-Extension:78 \
    Early-Media-Description:79 Envelope:80 Envelope-End-Time:81 Envelope-Reporting:82 Envelope-Start-Time:83 Event:84 \
    Event-Charging-TimeStamp:85 Event-Type:86 Expires:87 File-Repair-Supported:88 From-Address:89 GGSN-Address:90 \
    IMS-Application-Reference-Identifier:91 IMS-Charging-Identifier:92 IMS-Communication-Service-Identifier:93 \
    IMS-Emergency-Indicator:94 IMS-Information:95 IMSI-Unauthenticated-Flag:96 IP-Realm-Default-Indication:97 \
    Incoming-Trunk-Group-Id:98 Incremental-Cost:99 Initial-IMS-Charging-Identifier:100 Inter-Operator-Identifier:101 \
    Interface-Id:102 Interface-Port:103 Interface-Text:104 Interface-Type:105 LCS-APN:106 LCS-Client-Dialed-By-MS:107 \
    LCS-Client-External-ID:108 LCS-Client-Id:109 LCS-Client-Name:110 LCS-Client-Type:111 LCS-Data-Coding-Scheme:112 \
    LCS-Format-Indicator:113 LCS-Information:114 LCS-Name-String:115 LCS-Requestor-Id:116 LCS-Requestor-Id-String:117 \
    Local-GW-Inserted-Indication:118 Local-Sequence-Number:119 Location-Estimate:120 Location-Estimate-Type:121 \
    Location-Type:122 Low-Balance-Indication:123 Low-Priority-Indicator:124 MBMS-GW-Address:125 MBMS-Information:126 \
    MBMS-User-Service-Type:127 MM-Content-Type:128 MMBox-Storage-Requested:129 MMS-Information:130 MMTel-Information:131 \
    MMTel-SService-Type:132 Media-Initiator-Flag:133 Media-Initiator-Party:134 Message-Body:135 Message-Class:136 \
    Message-ID:137 Message-Size:138 Message-Type:139 NNI-Information:140 NNI-Type:141 Neighbour-Node-Address:142 \
    Next-Tariff:143 Node-Functionality:144 Node-Id:145 Number-Of-Diversions:146 Number-Of-Messages-Sent:147 \
    Number-Of-Participants:148 Number-Of-Received-Talk-Bursts:149 Number-Of-Talk-Bursts:150 \
    Number-Portability-Routing-Information:151 Offline-Charging:152 Online-Charging-Flag:153 Originating-IOI:154 \
    Originator:155 Originator-Address:156 Originator-Interface:157 Originator-Received-Address:158 \
    Originator-SCCP-Address:159 Outgoing-Session-Id:160 Outgoing-Trunk-Group-Id:161 PDG-Address:162 PDG-Charging-Id:163 \
    PDN-Connection-Charging-ID:164 PDP-Address-Prefix-Length:166 PDP-Context-Type:167 PS-Append-Free-Format-Data:168 \
    PS-Free-Format-Data:169 PS-Furnish-Charging-Information:170 PS-Information:171 Participant-Access-Priority:172 \
    Participant-Action-Type:173 Participant-Group:174 Participants-Involved:175 PoC-Change-Condition:176 \
    PoC-Change-Time:177 PoC-Controlling-Address:178 PoC-Event-Type:179 PoC-Group-Name:180 PoC-Information:181 \
    PoC-Server-Role:182 PoC-Session-Id:183 PoC-Session-Initiation-type:184 PoC-Session-Type:185 PoC-User-Role:186 \
    PoC-User-Role-IDs:187 PoC-User-Role-info-Units:188 Positioning-Data:189 Preferred-AoC-Currency:190 Priority:191 \
    Quota-Consumption-Time:192 Quota-Holding-Time:193 Rate-Element:194 Read-Reply-Report-Requested:195 \
    Real-Time-Tariff-Information:196 Received-Talk-Burst-Time:197 Received-Talk-Burst-Volume:198 Recipient-Address:199 \
    Recipient-Info:200 Recipient-Received-Address:201 Recipient-SCCP-Address:202 Refund-Information:203 \
    Relationship-Mode:204 Remaining-Balance:205 Reply-Applic-ID:206 Reply-Path-Requested:207 Reporting-Reason:208 \
    Requested-Party-Address:209 Role-Of-Node:210 SDP-Answer-Timestamp:211 SDP-Media-Component:212 \
    SDP-Media-Description:213 SDP-Media-Name:214 SDP-Offer-Timestamp:215 SDP-Session-Description:216 SDP-TimeStamps:217 \
    SDP-Type:218 SGSN-Address:219 SGW-Address:220 SGW-Change:221 SIP-Request-Timestamp:223 \
    SIP-Request-Timestamp-Fraction:224 SIP-Response-Timestamp:225 SIP-Response-Timestamp-Fraction:226 \
    SM-Discharge-Time:227 SM-Message-Type:228 SM-Protocol-ID:229 SM-Service-Type:230 SM-Status:231 SM-User-Data-Header:232 \
    SMS-Information:233 SMS-Node:234 SMSC-Address:235 Scale-Factor:236 Service-Data-Container:238 Service-Id:239 \
    Service-Information:240 Service-Mode:241 Service-Specific-Data:242 Service-Specific-Info:243 Service-Specific-Type:244 \
    Serving-Node-Type:245 Session-Direction:246 Start-Time:247 Status:248 Stop-Time:249 Submission-Time:250 \
    Subscriber-Role:251 Supplementary-Service:252 Talk-Burst-Exchange:253 Talk-Burst-Time:254 Talk-Burst-Volume:255 \
    Tariff-Information:256 Tariff-XML:257 Terminating-IOI:258 Time-First-Usage:259 Time-Last-Usage:260 \
    Time-Quota-Mechanism:261 Time-Quota-Threshold:262 Time-Quota-Type:263 Time-Stamps:264 Time-Usage:265 Token-Text:266 \
    Traffic-Data-Volumes:267 Transcoder-Inserted-Indication:268 Transit-IOI-List:269 Trigger:270 Trigger-Type:271 \
    Trunk-Group-Id:272 Type-Number:273 Unit-Cost:274 Unit-Quota-Threshold:275 User-CSG-Information:276 \
    User-Participating-Type:277 User-Session-Id:278 Volume-Quota-Threshold:279 WAG-Address:280 WAG-PLMN-Id:281 \
    WLAN-Information:282 WLAN-Radio-Container:283 WLAN-Session-Id:284 WLAN-Technology:285 WLAN-UE-Local-IPAddress:286 \
    Cellular-Network-Information:287 Inter-UE-Transfer:288 Instance-Id:289 Related-IMS-Charging-Identifier:290 \
    Related-IMS-Charging-Identifier-Node:291 TMGI:292 MBMS-Service-Type:293 Required-MBMS-Bearer-Capabilities:294 \
    MBMS-2G-3G-Indicator:295 MBMS-Service-Area:296 MBMS-Session-Identity:297 CN-IP-Multicast-Distribution:298 VASP-ID:299 \
    VAS-ID:300 ePDG-Address:301 TWAG-Address:302 User-Location-Info-Time:303 Presence-Reporting-Area-Information:304 \
    3GPP2-BSID:305 TWAN-User-Location-Info:306 UWAN-User-Location-Info:307 NBIFOM-Mode:309 NBIFOM-Support:310 MME-Name:312 \
    MME-Realm:313 Logical-Access-ID:314 Physical-Access-ID:315 Fixed-User-Location-Info:316 \
    CN-Operator-Selection-Entity:317 Enhanced-Diagnostics:318 SGi-PtP-Tunnelling-Method:319 \
    CP-CIoT-EPS-Optimisation-Indicator:320 UNI-PDU-CP-Only-Flag:321 Serving-PLMN-Rate-Control:322 APN-Rate-Control:323 \
    Charging-Per-IP-CAN-Session-Indicator:324 RRC-Cause-Counter:325 Presence-Reporting-Area-Status:326 \
    Related-Change-Condition-Information:327 Service-Generic-Information:328 IM-Information:329 DCD-Information:330 \
    Access-Availability-Change-Reason:331 Operator-Name:333 Location-Information:334 \
    Presence-Reporting-Area-Identifier:335 Presence-Reporting-Area-Elements-List:336 Presence-Reporting-Area-Node:337 \
    SSID:338 BSSID:339 RAN-NAS-Release-Cause:343 Uplink-Rate-Limit:344 Downlink-Rate-Limit:345 APN-Rate-Control-Uplink:346 \
    APN-Rate-Control-Downlink:347 Counter-Value:348 RRC-Counter-Timestamp:349 Application-Server-ID:350 \
    Application-Service-Type:351 Application-Session-ID:352 Delivery-Status:353 \
    Number-Of-Messages-Successfully-Exploded:354 Number-Of-Messages-Successfully-Sent:355 \
    Total-Number-Of-Messages-Exploded:356 Total-Number-Of-Messages-Sent:357 Content-ID:358 Content-provider-ID:359 \
    Additional-Exception-Reports:360 Rate-Control-Time-Unit:361 Rate-Control-Max-Rate:362 \
    Rate-Control-Max-Message-Size:363\
    ";

/// The file of `dictionaries/` that declares an AVP of this name, and the number of the line.
pub fn declared_in(name: &str) -> Option<(&'static str, &'static str)> {
    for part in SHIPPED.split('@') {
        if let Some((file, avps)) = part.split_once(' ') {
            if let Some(line) = line_of(avps, name) {
                return Some((file, line));
            }
        }
    }
    None
}

/// The number of the line of an AVP, among those of a file.
fn line_of(avps: &'static str, name: &str) -> Option<&'static str> {
    for word in avps.split(' ') {
        match word.split_once(':') {
            Some((declared, line)) if declared == name => return Some(line),
            _ => {}
        }
    }
    None
}
